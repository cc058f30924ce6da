// The test and the reduction as calls on a plant sheet and two words, whatever these are: what refuses the sheet or the
// words, and whose fault that is, or else what the test and the reduction answer. A test also gives the bytes that it shows.
#![tactic(auto)]

ghost use Rattle.std.specs.Prelude.{◌≡◌, ◌≤◌, length, take, Ok};
ghost use Rattle.model.specs.Consistency.{test};
ghost use Rattle.model.specs.Conflict.{reduce_alone};
ghost use Rattle.model.specs.Calls.{first_given, word_grounds, answered, test_call, reduce_call};
ghost use Rattle.refusal.specs.Refusal.{host_found};
ghost use Rattle.conflict.specs.Given.{Limits, ReadyFor, ForPlant, ForWordsOf};
ghost use Rattle.conflict_call.specs.Calls.{on_answer, on_plant, without_values, shown_in, tested_of, test_of, TestRight, worded, reduce_of, ReduceRight, ending_of, Answers};

use clauses::sets::{SAT_WORDS, USES_WORDS};
use clauses::tables::{Decoded, prepare};
use conflict::reduce::reduce;
use conflict::tests::{Shown, test_shown};
use limits::STATE_BYTES;
use plan::{PLAN_WORDS, Plan};
use refusal::{HostGround, Refusal};
use sheet::{COST_ENTRIES, COUNT_ENTRIES, LITERAL_BYTES, SIZE_ENTRIES};
use trials::Answer;

// The test's answer with its trials, or what refuses the call, and the bytes that it shows: the value of every variable where
// it is consistent, and zeros else.
#[derive(Drop)]
pub struct TestShown {
    pub answer: Result<Answer, Refusal>,
    pub values: [u8; STATE_BYTES],
}

// How a reduction ends, with its trials; a conflict by its two words.
#[derive(Clone, Copy)]
pub enum Reduction {
    None(u32),
    Conflict(u64, u64, u32),
    Spent(u32),
}

// What one function answers for both calls, and the bytes that the test of the whole shows.
#[derive(Drop)]
struct Asked {
    answer: Reduction,
    values: [u8; STATE_BYTES],
}

// The answer with what the test shows.
fn with_values(answer: Reduction, test: Shown) -> Asked
    ensures { result ≡ record { answer = answer; values = test.values } }
{
    let values = test.values;
    Asked { answer, values }
}

// The first ground on which the words are refused, if there is one.
fn fit(mask: u64, values: u64, sizes: &[u8], d: usize) -> Result<(), HostGround>
    requires { (d ≤ 16) × (d ≤ length sizes.now) }
    ensures { host_found result ≡ first_given (word_grounds (take d sizes.now) mask values) }
{
    if !words::mask_fits(mask, d) {
        return Err(HostGround::BadMask);
    }
    if !words::values_fit(mask, values, sizes, d) {
        return Err(HostGround::BadValues);
    }
    Ok(())
}

// The test of the assignment that the two words hold: an inconsistent one is a conflict, and is reduced where a minimal one is asked for.
fn conflict_of(
    plant: &Decoded,
    plan: &mut Plan,
    mask: u64,
    values: u64,
    limit: u32,
    minimal: bool,
) -> Asked
    requires { ReadyFor plant.now plan.old }
    ensures { ForWordsOf plant.now mask values (λ p a. Answers minimal (Ok result) (answered (test p limit a 0)) (answered (reduce_alone p limit a))) }
{
    let test = test_shown(plant, plan, mask, values, 0, limit);
    let ended = test.answer;
    match ended {
        Answer::Consistent(t) => with_values(Reduction::None(t), test),
        Answer::Spent(t) => with_values(Reduction::Spent(t), test),
        Answer::Inconsistent(t) => {
            if !minimal {
                return with_values(Reduction::Conflict(mask, values, t), test);
            }
            match reduce(plant, plan, mask, values, t, limit) {
                Ok(found) => with_values(
                    Reduction::Conflict(found.mask, found.values, found.trials),
                    test,
                ),
                Err(spent) => with_values(Reduction::Spent(spent.trials), test),
            }
        }
    }
}

// The same over decoded tables, or what refuses the words.
fn conflict_tables(
    d: usize,
    sizes: &[u8],
    counts: &[u8],
    lits: &[u8],
    mask: u64,
    values: u64,
    limit: u32,
    minimal: bool,
) -> Result<Asked, Refusal>
    requires { Limits d sizes.now counts.now lits.now }
    ensures { ForPlant d sizes.now counts.now lits.now (λ p. Answers minimal result (on_plant p mask values (λ a. test p limit a 0)) (on_plant p mask values (λ a. reduce_alone p limit a))) }
{
    fit(mask, values, sizes, d)?;
    let mut sat = [0u64; SAT_WORDS];
    let mut uses = [0u64; USES_WORDS];
    let mut plan = [0u64; PLAN_WORDS];
    prepare(counts, lits, &mut sat, &mut uses);
    let plant = Decoded {
        decisions: d,
        sizes,
        counts,
        lits,
        sat: &sat,
        uses: &uses,
    };
    Ok(conflict_of(&plant, &mut plan, mask, values, limit, minimal))
}

// The same on the plant of a sheet of either edition, or what refuses the sheet or the words.
fn conflict_call(
    sheet: &[u8],
    mask: u64,
    values: u64,
    limit: u32,
    minimal: bool,
) -> Result<Asked, Refusal>
    ensures { Answers minimal result (test_call sheet.now mask values limit) (reduce_call sheet.now mask values limit) }
{
    let weighed = sheet::weighed(sheet);
    let mut sizes = [0u8; SIZE_ENTRIES];
    let mut costs = [0u16; COST_ENTRIES];
    let mut counts = [0u8; COUNT_ENTRIES];
    let mut lits = [0u8; LITERAL_BYTES];
    let numbers = sheet::read(
        sheet,
        weighed,
        &mut sizes,
        &mut costs,
        &mut counts,
        &mut lits,
    )?;
    let variables = numbers.decisions + numbers.states;
    conflict_tables(
        numbers.decisions,
        &sizes[..variables],
        &counts[..numbers.clauses],
        &lits,
        mask,
        values,
        limit,
        minimal,
    )
}

// How the test ended, where the conflict is the whole.
fn ending(answer: Reduction) -> Answer
    ensures { tested_of result ≡ ending_of answer }
{
    match answer {
        Reduction::None(t) => Answer::Consistent(t),
        Reduction::Conflict(_, _, t) => Answer::Inconsistent(t),
        Reduction::Spent(t) => Answer::Spent(t),
    }
}

// The test of the two words' assignment on the sheet's plant, and what it shows.
pub fn test_call(sheet: &[u8], mask: u64, values: u64, limit: u32) -> TestShown
    ensures answer { test_of result.answer ≡ on_answer without_values (test_call sheet.now mask values limit) }
    ensures values { result.values ≡ shown_in (test_call sheet.now mask values limit) }
    ensures right { TestRight sheet.now mask values result }
{
    match conflict_call(sheet, mask, values, limit, false) {
        Ok(asked) => {
            let answer = Ok(ending(asked.answer));
            let values = asked.values;
            TestShown { answer, values }
        }
        Err(refusal) => TestShown {
            answer: Err(refusal),
            values: [0u8; STATE_BYTES],
        },
    }
}

// The reduction of the two words' assignment on the sheet's plant, which is tested first.
pub fn reduce_call(sheet: &[u8], mask: u64, values: u64, limit: u32) -> Result<Reduction, Refusal>
    ensures answer { reduce_of result ≡ on_answer worded (reduce_call sheet.now mask values limit) }
    ensures right { ReduceRight sheet.now mask values result }
{
    let asked = conflict_call(sheet, mask, values, limit, true)?;
    Ok(asked.answer)
}
