// The lines that the program `leading` prints, put into a lent buffer at a place: a line for each state listed, the counts
// of a run, and the line of a refusal.
#![tactic(auto)]

ghost use Rattle.std.specs.Prelude.{◌+◌, ◌≤◌, ◌++◌, length};
ghost use Rattle.model.specs.Text.{decimal, refusal_line};
ghost use Rattle.theory.specs.Puts.{Puts};
ghost use Rattle.lines.specs.Lines.{line_of, lines_of, counts_of};

use text::{put_bytes, put_decimal, put_hexadecimal};

// Hexadecimal digits of a code.
const CODE_DIGITS: usize = 16;

// Puts a word and the number after it.
fn put_named(out: &mut [u8], at: usize, word: &[u8], n: u64) -> usize
    requires { at + (length word.now + length (decimal n)) ≤ length out.old }
    ensures { Puts at (word.now ++ decimal n) out.old result out.new }
{
    let next = put_bytes(out, at, word);
    put_decimal(out, next, n)
}

// Puts the line of a state: rank, cost and code.
fn put_state(out: &mut [u8], at: usize, rank: u64, cost: u64, code: u64) -> usize
    requires { at + length (line_of rank cost code) ≤ length out.old }
    ensures { Puts at (line_of rank cost code) out.old result out.new }
{
    let ranked = put_decimal(out, at, rank);
    let priced = put_named(out, ranked, b" ", cost);
    let spaced = put_bytes(out, priced, b" ");
    let coded = put_hexadecimal(out, spaced, code, CODE_DIGITS);
    put_bytes(out, coded, b"\n")
}

// Puts the lines of the states listed.
pub fn put_states(out: &mut [u8], at: usize, codes: &[u64], costs: &[u32], listed: usize) -> usize
    requires { (listed ≤ length codes.now) × (listed ≤ length costs.now) × (at + length (lines_of codes.now costs.now listed) ≤ length out.old) }
    ensures { Puts at (lines_of codes.now costs.now listed) out.old result out.new }
{
    let mut next = at;
    for i in 0..listed {
        let rank = i as u64 + 1;
        next = put_state(out, next, rank, costs[i] as u64, codes[i]);
    }
    next
}

// Puts the counts of a run, named but for the first.
pub fn put_counts(
    out: &mut [u8],
    at: usize,
    listed: u32,
    tested: u32,
    learned: u32,
    unkept: u32,
    trials: u32,
) -> usize
    requires { at + length (counts_of listed tested learned unkept trials) ≤ length out.old }
    ensures { Puts at (counts_of listed tested learned unkept trials) out.old result out.new }
{
    let first = put_decimal(out, at, listed as u64);
    let second = put_named(out, first, b" tested ", tested as u64);
    let third = put_named(out, second, b" learned ", learned as u64);
    let fourth = put_named(out, third, b" unkept ", unkept as u64);
    let fifth = put_named(out, fourth, b" trials ", trials as u64);
    put_bytes(out, fifth, b"\n")
}

// Puts the line of a refusal by its number.
pub fn put_refusal(out: &mut [u8], at: usize, number: u32) -> usize
    requires { at + length (refusal_line number) ≤ length out.old }
    ensures { Puts at (refusal_line number) out.old result out.new }
{
    let numbered = put_named(out, at, b"refused ", number as u64);
    put_bytes(out, numbered, b"\n")
}
