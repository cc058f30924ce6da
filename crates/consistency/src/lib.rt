// The consistency test over decoded tables: whether values of all unassigned variables make every clause hold, with the
// trials that `docs/SPECIFICATION.md` counts. The first question, whether a clause is false already, is asked of the
// literals themselves (`clauses::evaluation`). After that a trial is a few operations on words, since sets of clauses are
// bits of words: the sets of a plant are made once (`clauses::tables`), and the search hands down the set of the clauses
// that are satisfied so far. With at most 128 clauses a set is two words (`pair_search`), with more it is eight
// (`row_search`). A variable's value is a byte, and 16 says that it is unassigned.
#![tactic(auto)]

ghost use Rattle.model.specs.Tables.{clauses};
ghost use Rattle.std.specs.Prelude.{map, ◌≡◌, ◌≤◌, length};
ghost use Rattle.clauses.specs.Bytes.{given};
ghost use Rattle.clauses.specs.Numbers.{pair_clauses};
ghost use Rattle.trials.specs.Answers.{test_over, Ended};
ghost use Rattle.plan.specs.Plans.{plan_words};
ghost use Rattle.consistency.specs.Given.{GivenFor};

use clauses::evaluation::any_false;
use clauses::sets::{PAIR_CLAUSES, PairSet, USES_WORDS};
use clauses::tables::Decoded;
use plan::Plan;
use trials::Answer;

// The test with sets of two words, of a plant of at most 128 clauses.
fn test_pairs(plant: &Decoded, vals: &mut [u8], plan: &mut Plan, used: u32, limit: u32) -> Answer
    requires { GivenFor plant.now vals.old × (length plan.old ≡ plan_words) × (length plant.now.counts.now ≤ pair_clauses) }
    ensures ended { Ended (test_over (clauses plant.now.counts.now plant.now.lits.now) plant.now.sizes.now limit used (map given vals.old)) vals.old vals.new result }
    ensures long { length plan.new ≡ plan_words }
{
    let s = plan::start(plant.sizes, vals, plant.sat, plant.uses, plan);
    if any_false(plant.counts, plant.lits, vals, s.held.with(s.open)) {
        return Answer::Inconsistent(used);
    }
    let answer = pair_search::search(plant.sat, plan, s.held, s.next, used, limit);
    plan::take_found(vals, plan, answer)
}

// The test with sets of eight words.
fn test_rows(plant: &Decoded, vals: &mut [u8], used: u32, limit: u32) -> Answer
    requires { GivenFor plant.now vals.old }
    ensures { Ended (test_over (clauses plant.now.counts.now plant.now.lits.now) plant.now.sizes.now limit used (map given vals.old)) vals.old vals.new result }
{
    if any_false(plant.counts, plant.lits, vals, PairSet::EMPTY) {
        return Answer::Inconsistent(used);
    }
    let mut last = [0u64; USES_WORDS];
    // An array by a reference that is a field is lent as a slice only by a variable of its own.
    let sat = plant.sat;
    let held = row_search::start(vals, sat, plant.uses, &mut last);
    row_search::search(plant.sizes, sat, &last, vals, held, 0, used, limit)
}

// The test of an assignment to all variables, with `used` trials made before; where it is consistent, `vals` holds the values
// found. The plan is room for the search, whatever is in it.
pub fn test(plant: &Decoded, vals: &mut [u8], plan: &mut Plan, used: u32, limit: u32) -> Answer
    requires { GivenFor plant.now vals.old × (length plan.old ≡ plan_words) }
    ensures ended { Ended (test_over (clauses plant.now.counts.now plant.now.lits.now) plant.now.sizes.now limit used (map given vals.old)) vals.old vals.new result }
    ensures long { length plan.new ≡ plan_words }
{
    if plant.counts.len() <= PAIR_CLAUSES {
        return test_pairs(plant, vals, plan, used, limit);
    }
    test_rows(plant, vals, used, limit)
}
