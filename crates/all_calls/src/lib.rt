// What holds of every call; there is no code here.
#![tactic(auto)]
