// The text that the program `leading` prints for a sheet, made in a lent buffer: a line for each of the sixteen leading
// states of its plant, then how the run ended; or the number of the refusal.
#![tactic(auto)]

ghost use Rattle.std.specs.Prelude.{◌≤◌, ◌≡◌, length};
ghost use Rattle.model.specs.Text.{leading_text};
ghost use Rattle.theory.specs.Puts.{written, Puts};
ghost use Rattle.answer_text.specs.Room.{run_text};

use limits::STATE_BYTES;
use lines::{put_counts, put_refusal, put_states};
use listing::Ran;
use text::put_bytes;

// States wanted.
const WANTED_STATES: usize = 16;

// Words of the store: 64 entries.
const STORE_WORDS: usize = 128;

// Words of the queue: 4,096 entries.
const QUEUE_WORDS: usize = 8_192;

// Trials that the run may take.
const TRIAL_LIMIT: u32 = 1_000_000;

// Bytes of a text at most.
pub const TEXT_BYTES: usize = 1_085;

// Puts the lines of a run.
fn put_run(out: &mut [u8], codes: &[u64], costs: &[u32], ran: Ran) -> usize
    requires { (ran.counts.listed ≤ length codes.now) × (ran.counts.listed ≤ length costs.now) × (length (run_text codes.now costs.now ran) ≤ length out.old) }
    ensures { Puts 0 (run_text codes.now costs.now ran) out.old result out.new }
{
    let c = ran.counts;
    let listed = put_states(out, 0, codes, costs, c.listed as usize);
    let ended = put_bytes(out, listed, ran.ending.word());
    put_counts(
        out, ended, c.listed, c.tested, c.learned, c.unkept, c.trials,
    )
}

// Puts the text that is printed for a sheet, and answers with its length.
pub fn leading_text(sheet: &[u8], out: &mut [u8; TEXT_BYTES]) -> usize
    ensures out_after { (out.new ≡ written 0 (leading_text sheet.now) out.old) × (result ≡ length (leading_text sheet.now)) }
    ensures within { result ≤ length out.new }
{
    let mut codes = [0u64; WANTED_STATES];
    let mut costs = [0u32; WANTED_STATES];
    let mut values = [0u8; STATE_BYTES * WANTED_STATES];
    let mut queue = [0u64; QUEUE_WORDS];
    let mut store = [0u64; STORE_WORDS];
    match listing_call::list(
        sheet,
        WANTED_STATES as u32,
        &mut codes,
        &mut costs,
        &mut values,
        &mut queue,
        &mut store,
        0,
        TRIAL_LIMIT,
    ) {
        Err(refusal) => put_refusal(out, 0, refusal.number()),
        Ok(ran) => put_run(out, &codes, &costs, ran),
    }
}
