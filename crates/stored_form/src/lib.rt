// value.rs, the stored forms of values: what a slot's bytes read as. These are definitions in specs/ and their laws in
// proofs/; there is no code here.
#![tactic(auto)]
