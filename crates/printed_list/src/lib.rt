// The theorems about the printed list of platform occupations; there is no code here.
#![tactic(auto)]
