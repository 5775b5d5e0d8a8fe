// Profile texts: syntax, reading with its refusals, encoding and limits, sizes, the two spellings of constants, and
// what is claimed of them. These stand in specs/; the limits and what a reading gives are here.
#![tactic(auto)]

// The most bytes in a text.
pub const LONGEST: usize = 4096;

// The most nesting in a text; the root has 1.
pub const DEEPEST: usize = 64;

// What an accepted text's reading gives: its record count, its depth bound D and how many variables it names, n.
#[derive(Clone, Copy)]
pub struct Sizes {
    pub records: usize,
    pub depth: usize,
    pub cells: usize,
}
