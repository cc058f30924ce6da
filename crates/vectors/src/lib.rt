// What the programs that replay the outside program's vectors share: the checksum, and reading the numbers and blocks of a
// vector stream from a reader; the program `leading` reads its block too. No function has a `requires`.
#![tactic(auto)]

mod checksum;
mod input;

pub use checksum::{CHECKSUM_START, Mixed, mixed_all};
pub use input::{read_block, read_full, read_u8, read_u16, read_u32, read_u64};
