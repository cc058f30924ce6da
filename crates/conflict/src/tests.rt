// The consistency test of an assignment to the decision variables that is given by its two words: its answer, and where the
// caller wants them the values that it shows.
ghost use Rattle.std.specs.Prelude.{◌≡◌, ◌++◌, map, ◌-◌, ◌≤◌, length, get_or, replicate};
ghost use Rattle.std.proofs.Math.Option.{none};
ghost use Rattle.model.specs.Assignment.{assignment_of};
ghost use Rattle.model.specs.Consistency.{test};
ghost use Rattle.model.specs.Calls.{shown_by};
ghost use Rattle.theory.specs.Words.{byte};
ghost use Rattle.trials.specs.Answers.{answer_of};
ghost use Rattle.plan.specs.Plans.{plan_words};
ghost use Rattle.conflict.specs.Given.{ReadyFor, ForWordsOf};
ghost use Rattle.conflict.specs.Shown.{shown_of};

use clauses::tables::Decoded;
use limits::{STATE_BYTES, UNASSIGNED};
use plan::Plan;
use trials::Answer;

// The byte of the variable v, of which the first d are decision variables.
fn byte_at(d: usize, mask: u64, values: u64, v: usize) -> u8
    requires { d ≤ 16 }
    ensures { result ≡ byte (get_or (assignment_of d mask values) v none) }
{
    if v < d {
        return words::value(mask, values, v);
    }
    UNASSIGNED
}

// Fills the bytes of all variables from the two words: a decision variable's value, or 16 where it has none, and 16 for each state variable.
fn fill(vals: &mut [u8], d: usize, mask: u64, values: u64)
    requires { (d ≤ 16) × (d ≤ length vals.old) }
    ensures { vals.new ≡ map byte (assignment_of d mask values ++ replicate (length vals.old - d) none) }
{
    for (v, value) in vals.iter_mut().enumerate() {
        *value = byte_at(d, mask, values, v);
    }
}

// How a test ended, and the bytes that it shows: the value of every variable, the first complete success, and zeros where there is none.
#[derive(Drop)]
pub struct Shown {
    pub answer: Answer,
    pub values: [u8; STATE_BYTES],
}

// What is shown of the bytes that a test leaves: all of them where it was consistent.
fn shown_of(answer: Answer, left: [u8; STATE_BYTES]) -> [u8; STATE_BYTES]
    ensures { result ≡ shown_of answer left }
{
    match answer {
        Answer::Consistent(_) => left,
        Answer::Inconsistent(_) => [0u8; STATE_BYTES],
        Answer::Spent(_) => [0u8; STATE_BYTES],
    }
}

// The test of the assignment that the two words hold, with `used` trials made before, and what it shows. The plan is room for the search of a test, whatever is in it.
pub fn test_shown(
    plant: &Decoded,
    plan: &mut Plan,
    mask: u64,
    values: u64,
    used: u32,
    limit: u32,
) -> Shown
    requires { ReadyFor plant.now plan.old }
    ensures answer { ForWordsOf plant.now mask values (λ p a. (result.answer ≡ answer_of (test p limit a used)) × (result.values ≡ shown_by (test p limit a used))) }
    ensures long { length plan.new ≡ plan_words }
{
    let mut vals = [0u8; STATE_BYTES];
    let n = plant.sizes.len();
    fill(&mut vals[..n], plant.decisions, mask, values);
    let answer = consistency::test(plant, &mut vals[..n], plan, used, limit);
    Shown {
        answer,
        values: shown_of(answer, vals),
    }
}

// The test by itself.
pub fn tested(
    plant: &Decoded,
    plan: &mut Plan,
    mask: u64,
    values: u64,
    used: u32,
    limit: u32,
) -> Answer
    requires { ReadyFor plant.now plan.old }
    ensures answer { ForWordsOf plant.now mask values (λ p a. result ≡ answer_of (test p limit a used)) }
    ensures long { length plan.new ≡ plan_words }
{
    let shown = test_shown(plant, plan, mask, values, used, limit);
    shown.answer
}
