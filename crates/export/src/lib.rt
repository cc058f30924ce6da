// The calls on a sheet for a C program, on numbers and lent buffers: each returns a refusal's number, or 0 after its result
// words were written. `leading_c` has them for C, with those of `export_weights` and `export_tables`.
#![tactic(auto)]

ghost use Rattle.std.specs.Prelude.{◌≡◌, [], ◌∷◌, ◌≤◌, length, Ok};
ghost use Rattle.model.specs.Lists.{filled};
ghost use Rattle.model.specs.Calls.{Buffers, ending_number, result_words, test_words, exported_of, export_call, test_export, reduce_export};
ghost use Rattle.judge.specs.Standing.{ending_of};
ghost use Rattle.listing.specs.Listing.{buffers, counts_of, answer_of};
ghost use Rattle.conflict_call.specs.Calls.{tested_of};
ghost use Rattle.listing.specs.declared.Ran.{Ran};
ghost use Rattle.export.specs.Exports.{version, exported, ExportPromises, TestTells, ReduceTells};

use conflict_call::{Reduction, reduce_call, test_call};
use judge::Ending;
use limits::STATE_BYTES;
use listing::Ran;
use listing_call::list_with;
use refusal::{HostGround, Refusal};
use trials::Answer;

// Result words of a listing.
pub const LISTING_WORDS: usize = 6;

// Result words of a test or a reduction, and words of a conflict.
const TEST_WORDS: usize = 2;

// MAJOR, MINOR and PATCH of the header, a byte each from the third on.
const VERSION: u32 = 66048;

// The version of these exports, which the header has too.
pub fn leading_version() -> u32
    ensures { result ≡ version }
{
    VERSION
}

// The number of an ending.
fn ending_number(e: Ending) -> u32
    ensures { result ≡ ending_number (ending_of e) }
{
    match e {
        Ending::Enough => 1,
        Ending::All => 2,
        Ending::Full => 3,
        Ending::Spent => 4,
    }
}

// Writes the six result words of a run.
pub fn write(res: &mut [u32], ran: Ran)
    requires { 6 ≤ length res.old }
    ensures { res.new ≡ filled (result_words (ending_of ran.ending) (counts_of ran.counts)) res.old }
{
    res[0] = ending_number(ran.ending);
    res[1] = ran.counts.listed;
    res[2] = ran.counts.tested;
    res[3] = ran.counts.learned;
    res[4] = ran.counts.unkept;
    res[5] = ran.counts.trials;
}

// Tells what a listing call answered, of either edition: a refusal by its number, a run by 0 and the result words.
pub fn tell(res: &mut [u32], answer: Result<Ran, Refusal>) -> u32
    requires { (ran : Ran) → answer ≡ Ok ran → 6 ≤ length res.old }
    ensures { (after : Buffers) → exported_of res.old after (answer_of answer) ≡ exported result after res.new }
{
    match answer {
        Err(refusal) => refusal.number(),
        Ok(ran) => {
            write(res, ran);
            0
        }
    }
}

// The listing call: the result words are ending, listed, tested, learned, unkept and trials.
pub fn leading_list(
    sheet: &[u8],
    codes: &mut [u64],
    costs: &mut [u32],
    values: &mut [u8],
    queue: &mut [u64],
    store: &mut [u64],
    res: &mut [u32],
    k: u32,
    held: usize,
    limit: u32,
) -> u32
    ensures { (let before : Buffers = buffers codes.old costs.old values.old queue.old store.old in
        let after : Buffers = buffers codes.new costs.new values.new queue.new store.new in
        (export_call sheet.now k before held limit res.old ≡ exported result after res.new)
        × ExportPromises sheet.now k before held limit res.old result after res.new) }
{
    let short = res.len() < LISTING_WORDS;
    let answer = list_with(
        sheet, k, codes, costs, values, queue, store, held, limit, short,
    );
    tell(res, answer)
}

// Writes an answer's number and its trials to the first two result words.
fn written(res: &mut [u32], answer: u32, trials: u32) -> u32
    requires { 2 ≤ length res.old }
    ensures { (result ≡ 0) × (res.new ≡ filled (answer ∷ trials ∷ []) res.old) }
{
    res[0] = answer;
    res[1] = trials;
    0
}

// Writes what a test shows, its answer's number and its trials.
fn tested(
    shown: &mut [u8; STATE_BYTES],
    found: &[u8; STATE_BYTES],
    res: &mut [u32],
    answer: Answer,
) -> u32
    requires { 2 ≤ length res.old }
    ensures { (result ≡ 0) × (shown.new ≡ found.now) × (res.new ≡ filled (test_words (tested_of answer)) res.old) }
{
    *shown = *found;
    match answer {
        Answer::Consistent(t) => written(res, 1, t),
        Answer::Inconsistent(t) => written(res, 2, t),
        Answer::Spent(t) => written(res, 3, t),
    }
}

// The test call: the result words are the answer (1 consistent, 2 inconsistent, 3 spent) and its trials; `shown` takes the
// value of every variable after 'consistent', and zeros after the others.
pub fn leading_test(
    sheet: &[u8],
    mask: u64,
    values: u64,
    limit: u32,
    shown: &mut [u8; STATE_BYTES],
    res: &mut [u32],
) -> u32
    ensures equation { test_export sheet.now mask values limit shown.old res.old ≡ (result, shown.new, res.new) }
    ensures right { TestTells sheet.now mask values result shown.new res.new }
{
    if res.len() < TEST_WORDS {
        return HostGround::BadOutput.number();
    }
    let test = test_call(sheet, mask, values, limit);
    let found = test.values;
    match test.answer {
        Err(refusal) => refusal.number(),
        Ok(answer) => tested(shown, &found, res, answer),
    }
}

// Writes a conflict's two words.
fn put(conflict: &mut [u64], mask: u64, values: u64)
    requires { 2 ≤ length conflict.old }
    ensures { conflict.new ≡ filled (mask ∷ values ∷ []) conflict.old }
{
    conflict[0] = mask;
    conflict[1] = values;
}

// The reduce call: the result words are the answer (1 none, 2 conflict, 3 spent) and its trials; a conflict's two words go
// to `conflict`.
pub fn leading_reduce(
    sheet: &[u8],
    mask: u64,
    values: u64,
    limit: u32,
    conflict: &mut [u64],
    res: &mut [u32],
) -> u32
    ensures equation { reduce_export sheet.now mask values limit conflict.old res.old ≡ (result, conflict.new, res.new) }
    ensures right { ReduceTells sheet.now mask values result conflict.new res.new }
{
    if (conflict.len() < TEST_WORDS) | (res.len() < TEST_WORDS) {
        return HostGround::BadOutput.number();
    }
    match reduce_call(sheet, mask, values, limit) {
        Err(refusal) => refusal.number(),
        Ok(Reduction::None(t)) => written(res, 1, t),
        Ok(Reduction::Spent(t)) => written(res, 3, t),
        Ok(Reduction::Conflict(m, x, t)) => {
            put(conflict, m, x);
            written(res, 2, t)
        }
    }
}
