// Replays the listings that `outside/vectors.py listings` writes: reads them from standard input, makes each call, of
// either edition, in buffers of the lengths and words that the case says, and prints its answer and a checksum of every lent word. What it
// must print was written by the outside program.
#![tactic(auto)]

ghost use Rattle.std.specs.Prelude.{◌≡◌, ◌≤◌, fold};
ghost use Rattle.vectors.specs.Bytes.{mix, mix64};

use answers::{print_ending, print_refusal};
use listing::{Counts, Ran};
use listing_call::list;
use printing::{print_hex8, print_number};
use refusal::Refusal;
use std::io;
use std::io::{Read, Write};
use vectors::{
    CHECKSUM_START, Mixed, mixed_all, read_block, read_u8, read_u16, read_u32, read_u64,
};
use weights_call::list_weights;

// The byte of a case for the call of edition 2.
const SECOND: u8 = 2;

// Bytes of values that a case may have: those of the most states, and some more.
const VALUES_ROOM: usize = 196_700;

// Makes every word junk plus its own place.
fn fill(words: &mut [u64], junk: u64) {
    for (place, word) in words.iter_mut().enumerate() {
        *word = junk.wrapping_add(place as u64);
    }
}

// Reads the words.
fn read_words<R: Read>(input: &mut R, words: &mut [u64]) -> io::Result<()> {
    for word in words.iter_mut() {
        *word = read_u64(input)?;
    }
    Ok(())
}

// The checksum of every lent word behind the figures, from that of the words before.
fn checksum(figured: u32, values: &[u8], queue: &[u64], store: &[u64]) -> u32
    ensures { result ≡ fold mix64 (fold mix64 (fold mix figured values.now) queue.now) store.now }
{
    let shown = mixed_all(figured, values);
    let queued = mixed_all(shown, queue);
    mixed_all(queued, store)
}

// Prints the counts of a run.
fn print_counts<W: Write>(out: &mut W, c: Counts) -> io::Result<()> {
    print_number(out, u64::from(c.listed), b' ')?;
    print_number(out, u64::from(c.tested), b' ')?;
    print_number(out, u64::from(c.learned), b' ')?;
    print_number(out, u64::from(c.unkept), b' ')?;
    print_number(out, u64::from(c.trials), b' ')
}

// Prints a call's answer.
fn print_answer<W: Write>(out: &mut W, answer: Result<Ran, Refusal>) -> io::Result<()> {
    match answer {
        Err(refusal) => print_refusal(out, refusal, b' '),
        Ok(ran) => {
            print_ending(out, ran.ending)?;
            print_counts(out, ran.counts)
        }
    }
}

// Prints a call's line: its answer and a checksum of every lent word.
fn print_line<W: Write, F: Mixed>(
    out: &mut W,
    answer: Result<Ran, Refusal>,
    codes: &[u64],
    figures: &[F],
    values: &[u8],
    queue: &[u64],
    store: &[u64],
) -> io::Result<()> {
    print_answer(out, answer)?;
    let coded = mixed_all(CHECKSUM_START, codes);
    let figured = mixed_all(coded, figures);
    let hash = checksum(figured, values, queue, store);
    print_hex8(out, hash, b'\n')
}

// So many bytes of values as there is room for.
fn at_most_room(n: u32) -> usize
    ensures { result ≤ 196700 }
{
    VALUES_ROOM.min(n as usize)
}

// Reads the rest of a case, from the lengths of its buffers on, and answers it.
fn replay_on<R: Read, W: Write>(
    input: &mut R,
    out: &mut W,
    call: u8,
    sheet: &[u8],
    k: u32,
) -> io::Result<()> {
    let codes_len = usize::from(read_u16(input)?);
    let costs_len = usize::from(read_u16(input)?);
    let values_len = at_most_room(read_u32(input)?);
    let queue_len = usize::from(read_u16(input)?);
    let store_len = usize::from(read_u16(input)?);
    let held = usize::from(read_u16(input)?);
    let limit = read_u32(input)?;
    let given = usize::from(read_u16(input)?);
    let mut codes = [0u64; 65536];
    let mut costs = [0x2222_2222u32; 65536];
    let mut products = [0x2222_2222_2222_2222u64; 65536];
    let mut values = [0x55u8; VALUES_ROOM];
    let mut queue = [0u64; 65536];
    let mut store = [0u64; 65536];
    fill(&mut codes, 0x1111_1111_1111_1111);
    fill(&mut queue, 0x3333_3333_3333_3333);
    fill(&mut store, 0x4444_4444_4444_4444);
    read_words(input, &mut store[..given])?;
    let codes = &mut codes[..codes_len];
    let values = &mut values[..values_len];
    let queue = &mut queue[..queue_len];
    let store = &mut store[..store_len];
    if call == SECOND {
        let products = &mut products[..costs_len];
        let answer = list_weights(sheet, k, codes, products, values, queue, store, held, limit);
        return print_line(out, answer, codes, products, values, queue, store);
    }
    let costs = &mut costs[..costs_len];
    let answer = list(sheet, k, codes, costs, values, queue, store, held, limit);
    print_line(out, answer, codes, costs, values, queue, store)
}

// Reads one case and answers it.
fn replay<R: Read, W: Write>(input: &mut R, out: &mut W) -> io::Result<()> {
    let call = read_u8(input)?;
    let mut bytes = [0u8; 65536];
    let length = usize::from(read_u16(input)?);
    let n = read_block(input, &mut bytes, length)?;
    let k = read_u32(input)?;
    replay_on(input, out, call, &bytes[..n], k)
}

// Reads the number of cases, and replays each.
fn main(rt: HostRuntime) -> io::Result<()> {
    let mut input = rt.stdin();
    let mut out = rt.stdout();
    let cases = read_u16(&mut input)?;
    for _ in 0..cases {
        replay(&mut input, &mut out)?;
    }
    Ok(())
}
