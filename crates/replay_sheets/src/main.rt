// Replays the sheets that `outside/vectors.py sheets` writes: reads plant sheets from standard input and prints a line for
// each, the refusal's number or the counts and a checksum of the decoded tables. What it must print was written by the
// outside reader.
#![tactic(auto)]

ghost use Rattle.std.specs.Prelude.{◌≤◌, length};
ghost use Rattle.readings.specs.Lengths.{size_entries, count_entries, literal_bytes};

use limits::VALUES;
use printing::{print_hex8, print_number, print_text};
use sheet::{CLAUSE_BYTES, COST_ENTRIES, COUNT_ENTRIES, LITERAL_BYTES, Numbers, SIZE_ENTRIES};
use std::io;
use std::io::{Read, Write};
use vectors::{CHECKSUM_START, Mixed, mixed_all, read_block, read_u16};

// The checksum with the costs of the decision variables, as many of each row as its size says.
fn mixed_rows(hash: u32, sizes: &[u8], costs: &[u16]) -> u32 {
    let mut h = hash;
    for (size, row) in sizes.iter().zip(costs.chunks(VALUES)) {
        h = row
            .iter()
            .take(usize::from(*size))
            .fold(h, |h, cost| cost.mixed(h));
    }
    h
}

// Where the literals of the last clause begin at most.
const LAST_CLAUSE: usize = LITERAL_BYTES - CLAUSE_BYTES;

// The bytes of as many literals as the counts say, three each.
fn literal_bytes(counts: &[u8]) -> usize
    ensures { result ≤ literal_bytes }
{
    let mut n = 0;
    for count in counts {
        if n > LAST_CLAUSE {
            return n;
        }
        n += 3 * usize::from(*count % 16);
    }
    n
}

// The checksum of decoded tables: sizes, costs, counts and literals.
fn checksum(numbers: Numbers, sizes: &[u8], costs: &[u16], counts: &[u8], lits: &[u8]) -> u32
    requires { (numbers.decisions ≤ 16) × (numbers.states ≤ 32) × (numbers.clauses ≤ 512) × (size_entries ≤ length sizes.now) × (count_entries ≤ length counts.now) × (literal_bytes ≤ length lits.now) }
{
    let sized = mixed_all(CHECKSUM_START, &sizes[..numbers.decisions + numbers.states]);
    let priced = mixed_rows(sized, &sizes[..numbers.decisions], costs);
    let counted = mixed_all(priced, &counts[..numbers.clauses]);
    let n = literal_bytes(&counts[..numbers.clauses]);
    mixed_all(counted, &lits[..n])
}

// Decodes a sheet by the edition that its first byte says, and prints its line.
fn answer<W: Write>(out: &mut W, bytes: &[u8]) -> io::Result<()> {
    let mut sizes = [0u8; SIZE_ENTRIES];
    let mut costs = [0u16; COST_ENTRIES];
    let mut counts = [0u8; COUNT_ENTRIES];
    let mut lits = [0u8; LITERAL_BYTES];
    let weighed = sheet::weighed(bytes);
    match sheet::read(
        bytes,
        weighed,
        &mut sizes,
        &mut costs,
        &mut counts,
        &mut lits,
    ) {
        Err(ground) => {
            print_text(out, b"refused ")?;
            print_number(out, u64::from(ground.number()), b'\n')
        }
        Ok(numbers) => {
            let hash = checksum(numbers, &sizes, &costs, &counts, &lits);
            print_number(out, numbers.decisions as u64, b' ')?;
            print_number(out, numbers.states as u64, b' ')?;
            print_number(out, numbers.clauses as u64, b' ')?;
            print_hex8(out, hash, b'\n')
        }
    }
}

// Reads one sheet and prints its line.
fn replay<R: Read, W: Write>(input: &mut R, out: &mut W) -> io::Result<()> {
    let mut bytes = [0u8; 65536];
    let length = usize::from(read_u16(input)?);
    let n = read_block(input, &mut bytes, length)?;
    answer(out, &bytes[..n])
}

// Reads the number of sheets, and replays each.
fn main(rt: HostRuntime) -> io::Result<()> {
    let mut input = rt.stdin();
    let mut out = rt.stdout();
    let sheets = read_u16(&mut input)?;
    for _ in 0..sheets {
        replay(&mut input, &mut out)?;
    }
    Ok(())
}
