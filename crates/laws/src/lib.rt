// Definitions and laws on lists, bytes and bits that several crates cite. There is no code here.
#![tactic(auto)]
