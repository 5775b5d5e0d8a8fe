// The two compiling stages, addresses, the table and its test, the way back, and what is claimed of them. These stand
// in specs/.
#![tactic(auto)]

// The bytes of a table: an address for each variable.
pub const TABLE_BYTES: usize = base::VARIABLES;
