// A history run through a handle: theorems over the calls of rook_row on a lent handle. There is no code.
#![tactic(auto)]
