// The row format, as definitions on lists in specs/ and their laws in proofs/. The only code is what the layout sees
// of a column.
#![tactic(auto)]

// A fixed column's size and alignment in bytes, or a Varchar.
#[derive(Clone, Copy)]
pub enum Shape {
    Fixed(usize, usize),
    Varlen,
}
