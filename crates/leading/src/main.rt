// Reads a plant sheet from standard input and prints the sixteen leading states of its plant with their costs, then how
// the run ended; or the number of the refusal.
#![tactic(auto)]

use answer_text::{TEXT_BYTES, leading_text};
use std::io;
use vectors::read_full;

// Bytes that decide: one more than the longest sheet has.
const SHEET_BYTES: usize = 11_357;

// Reads the sheet, and prints the text that is made of it.
fn main(rt: HostRuntime) -> io::Result<()> {
    let mut sheet = [0u8; SHEET_BYTES];
    let n = read_full(&mut rt.stdin(), &mut sheet)?;
    let mut out = [0u8; TEXT_BYTES];
    let length = leading_text(&sheet[..n], &mut out);
    rt.write_all(&out[..length])
}
