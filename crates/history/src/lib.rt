// The theorems about histories of edits; there is no code here.
#![tactic(auto)]
