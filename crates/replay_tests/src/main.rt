// Reads tests and reductions from standard input, as outside/vectors.py writes them, makes each call and prints its answer,
// and of a test a checksum of the bytes that it shows. What it must print was written by the outside program.
#![tactic(auto)]

use answers::print_refusal;
use conflict_call::Reduction;
use printing::{print_hex8, print_hex16, print_number, print_text};
use std::io;
use std::io::{Read, Write};
use trials::Answer;
use vectors::{CHECKSUM_START, mixed_all, read_block, read_u8, read_u16, read_u32, read_u64};

// Prints a word, the trials and the byte that follows them.
fn tried<W: Write>(out: &mut W, word: &[u8], trials: u32, after: u8) -> io::Result<()> {
    print_text(out, word)?;
    print_number(out, u64::from(trials), after)
}

// Tests and prints the answer and the checksum.
fn test<W: Write>(out: &mut W, sheet: &[u8], mask: u64, values: u64, limit: u32) -> io::Result<()> {
    let test = conflict_call::test_call(sheet, mask, values, limit);
    let answer = test.answer;
    let shown = test.values;
    match answer {
        Err(refusal) => print_refusal(out, refusal, b' ')?,
        Ok(Answer::Consistent(t)) => tried(out, b"consistent ", t, b' ')?,
        Ok(Answer::Inconsistent(t)) => tried(out, b"inconsistent ", t, b' ')?,
        Ok(Answer::Spent(t)) => tried(out, b"spent ", t, b' ')?,
    }
    let hash = mixed_all(CHECKSUM_START, &shown);
    print_hex8(out, hash, b'\n')
}

// Reduces and prints the answer.
fn reduce<W: Write>(
    out: &mut W,
    sheet: &[u8],
    mask: u64,
    values: u64,
    limit: u32,
) -> io::Result<()> {
    match conflict_call::reduce_call(sheet, mask, values, limit) {
        Err(refusal) => print_refusal(out, refusal, b'\n'),
        Ok(Reduction::None(t)) => tried(out, b"none ", t, b'\n'),
        Ok(Reduction::Spent(t)) => tried(out, b"spent ", t, b'\n'),
        Ok(Reduction::Conflict(m, v, t)) => {
            print_text(out, b"conflict ")?;
            print_hex16(out, m, b' ')?;
            print_hex16(out, v, b' ')?;
            print_number(out, u64::from(t), b'\n')
        }
    }
}

// Reads one case and makes its call.
fn replay<R: Read, W: Write>(input: &mut R, out: &mut W) -> io::Result<()> {
    let kind = read_u8(input)?;
    let mut bytes = [0u8; 65536];
    let length = usize::from(read_u16(input)?);
    let n = read_block(input, &mut bytes, length)?;
    let mask = read_u64(input)?;
    let values = read_u64(input)?;
    let limit = read_u32(input)?;
    if kind == 0 {
        test(out, &bytes[..n], mask, values, limit)
    } else {
        reduce(out, &bytes[..n], mask, values, limit)
    }
}

// Reads the number of cases, and replays each.
fn main(rt: HostRuntime) -> io::Result<()> {
    let mut input = rt.stdin();
    let mut out = rt.stdout();
    let cases = read_u16(&mut input)?;
    for _ in 0..cases {
        replay(&mut input, &mut out)?;
    }
    Ok(())
}
