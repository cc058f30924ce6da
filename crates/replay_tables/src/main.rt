// Replays the tables that `outside/vectors.py tables` writes: reads them from standard input, writes each case's sheet into a
// buffer of the length and the byte that the case says, reads a written sheet into lent tables, and prints both answers with
// checksums of every lent byte. What it must print was written by the outside program.
#![tactic(auto)]

ghost use Rattle.std.specs.Prelude.{◌≡◌, ◌≤◌, IfOk, fold};
ghost use Rattle.vectors.specs.Bytes.{checksum_start, mix, mix16};

use answers::print_refusal;
use printing::{print_hex8, print_number, print_text};
use readings::{COST_ENTRIES, COUNT_ENTRIES, LITERAL_BYTES, SIZE_ENTRIES};
use refusal::Refusal;
use std::io;
use std::io::{Read, Write};
use table_rules::Tables;
use vectors::{CHECKSUM_START, mixed_all, read_block, read_u8, read_u16, read_u32};

// What the tables that are lent to a reading hold before, in every byte.
const JUNK: u8 = 0xa5;

const COST_JUNK: u16 = 0xa5a5;

// Reads so many costs.
fn read_costs<R: Read>(input: &mut R, costs: &mut [u16]) -> io::Result<()> {
    for cost in costs.iter_mut() {
        *cost = read_u16(input)?;
    }
    Ok(())
}

// The checksum of every entry of lent tables.
fn checksum(
    sizes: &[u8; SIZE_ENTRIES],
    costs: &[u16; COST_ENTRIES],
    counts: &[u8; COUNT_ENTRIES],
    lits: &[u8; LITERAL_BYTES],
) -> u32
    ensures { result ≡ fold mix (fold mix (fold mix16 (fold mix checksum_start sizes.now) costs.now) counts.now) lits.now }
{
    let sized = mixed_all(CHECKSUM_START, sizes);
    let priced = mixed_all(sized, costs);
    let counted = mixed_all(priced, counts);
    mixed_all(counted, lits)
}

// Prints a number and a space.
fn print_count<W: Write>(out: &mut W, n: u32) -> io::Result<()> {
    print_number(out, n as u64, b' ')
}

// Reads a sheet into lent tables, and prints its numbers and a checksum of the tables.
fn read_back<W: Write>(out: &mut W, sheet: &[u8]) -> io::Result<()> {
    let mut sizes = [JUNK; SIZE_ENTRIES];
    let mut costs = [COST_JUNK; COST_ENTRIES];
    let mut counts = [JUNK; COUNT_ENTRIES];
    let mut lits = [JUNK; LITERAL_BYTES];
    let mut numbers = [0u32; 3];
    match read_call::read_call(
        sheet,
        &mut sizes,
        &mut costs,
        &mut counts,
        &mut lits,
        &mut numbers,
    ) {
        Err(refusal) => print_refusal(out, refusal, b' ')?,
        Ok(()) => {
            print_count(out, numbers[0])?;
            print_count(out, numbers[1])?;
            print_count(out, numbers[2])?;
        }
    }
    let hash = checksum(&sizes, &costs, &counts, &lits);
    print_hex8(out, hash, b'\n')
}

// Prints who caused a refusal.
fn print_whose<W: Write>(out: &mut W, r: Refusal) -> io::Result<()> {
    match r {
        Refusal::Host(_) => print_text(out, b"host "),
        Refusal::Author(_) => print_text(out, b"author "),
    }
}

// Writes the sheet of tables, and prints the answer and a checksum of the buffer; answers how many bytes there are to read.
fn answer<W: Write>(out: &mut W, tables: &Tables, sheet: &mut [u8]) -> io::Result<usize>
    ensures { IfOk result (λ n. n ≤ 65536) }
{
    match write_call::write_call(tables, sheet) {
        Err(refusal) => {
            print_refusal(out, refusal, b' ')?;
            print_whose(out, refusal)?;
            print_hex8(out, mixed_all(CHECKSUM_START, sheet), b'\n')?;
            Ok(0)
        }
        Ok(n) => {
            print_text(out, b"wrote ")?;
            print_count(out, n)?;
            print_hex8(out, mixed_all(CHECKSUM_START, sheet), b' ')?;
            Ok(n as usize)
        }
    }
}

// Reads the rest of a case, its buffer's length and byte; answers it, and reads back what was written.
fn replay_on<R: Read, W: Write>(input: &mut R, out: &mut W, tables: &Tables) -> io::Result<()> {
    let room = usize::from(read_u16(input)?);
    let byte = read_u8(input)?;
    let mut sheet = [0u8; 65536];
    sheet.fill(byte);
    let n = answer(out, tables, &mut sheet[..room])?;
    if n > 0 {
        read_back(out, &sheet[..n])?;
    }
    Ok(())
}

// Reads a number of two bytes and as many bytes, and answers how many there were.
fn read_bytes<R: Read>(input: &mut R, bytes: &mut [u8; 65536]) -> io::Result<usize>
    ensures { IfOk result (λ n. n ≤ 65536) }
{
    let length = usize::from(read_u16(input)?);
    read_block(input, bytes, length)
}

// Reads one case and answers it.
fn replay<R: Read, W: Write>(input: &mut R, out: &mut W) -> io::Result<()> {
    let decisions = read_u32(input)?;
    let states = read_u32(input)?;
    let clauses = read_u32(input)?;
    let mut sizes = [0u8; 65536];
    let sizes_len = read_bytes(input, &mut sizes)?;
    let mut costs = [0u16; 65536];
    let costs_len = usize::from(read_u16(input)?);
    read_costs(input, &mut costs[..costs_len])?;
    let mut counts = [0u8; 65536];
    let counts_len = read_bytes(input, &mut counts)?;
    let mut lits = [0u8; 65536];
    let lits_len = read_bytes(input, &mut lits)?;
    let tables = Tables {
        decisions,
        states,
        clauses,
        sizes: &sizes[..sizes_len],
        costs: &costs[..costs_len],
        counts: &counts[..counts_len],
        lits: &lits[..lits_len],
    };
    replay_on(input, out, &tables)
}

// Reads the number of cases, and replays each.
fn main(rt: HostRuntime) -> io::Result<()> {
    let mut input = rt.stdin();
    let mut out = rt.stdout();
    let cases = read_u16(&mut input)?;
    for _ in 0..cases {
        replay(&mut input, &mut out)?;
    }
    Ok(())
}
