// What a plant and a call may have at most, by name. The lengths of tables that are made for the largest plant stand with
// those tables. The definitions have the same names: `most_listed` is MOST_LISTED.
#![tactic(auto)]

// Decision variables, and those of a sheet whose figures are weights.
pub const DECISIONS: usize = 16;

pub const WEIGHED_DECISIONS: usize = 8;

// Decision and state variables together.
pub const VARIABLES: usize = 48;

// Bytes that show the values of a state, one for each variable that a plant can have.
pub const STATE_BYTES: usize = 48;

// Values of a variable.
pub const VALUES: usize = 16;

// The byte of a variable that is unassigned: no value.
pub const UNASSIGNED: u8 = 16;

// Clauses.
pub const CLAUSES: usize = 512;

// Literals of a clause.
pub const LITERALS: usize = 15;

// States that a call lists.
pub const MOST_LISTED: u32 = 4096;

// Words of a queue, and of a store.
pub const MOST_WORDS: usize = 8192;

// Tests that a run counts.
pub const MOST_TESTED: u32 = 4294967295;
