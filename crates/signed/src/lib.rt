// Laws of signed numbers and their bits in two's complement, which several crates cite. There is no code here: the
// casts are std's `cast_signed` and `cast_unsigned`.
#![tactic(auto)]
