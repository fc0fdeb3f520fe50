// The theorems about calls on rows that were built and rows that are read; there is no code here.
#![tactic(auto)]
