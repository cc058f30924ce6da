// The search on a plant of at most 128 clauses, along the plan that is made for the test (`plan`). It hands down a set of two words
// and the trials left, and notes in the plan the values that it found; where it finds none from a variable on, it notes by
// which clauses, and recalls that where it comes to the variable again.
#![tactic(auto)]

ghost use Rattle.std.specs.Prelude.{◌≡◌, List, ℕ, length};
ghost use Rattle.clauses.specs.Numbers.{pair_clauses};
ghost use Rattle.clauses.specs.Pairs.{of_pair};
ghost use Rattle.clauses.specs.Sets.{in_set};
ghost use Rattle.trials.specs.Searches.{Searches};
ghost use Rattle.plan.specs.Plans.{in_plan, PlanFor, Searchable, Knows, afterwards};
ghost use Rattle.pair_search.specs.Found.{Found};

use clauses::sets::{PairSet, SET_WORDS, Sat};
use limits::VALUES;
use plan::{COUNT_PLACE, NOTE_WORDS, NOTES_BEGIN, Plan, ROW_WORDS, covered, note, recall};
use trials::{Answer, trials_left, with_trials_made};

// Goes through the unassigned variables from v on, with so many trials left; the answer tells those that are left then.
// Each descent leaves one variable fewer to set: the proof's measure, `left_to_set` in plan/specs/Plans.
fn descend(sat: &Sat, plan: &mut Plan, held: PairSet, v: usize, left: u32) -> Answer
    requires { Searchable plan.old v }
    ensures { Found sat.now plan.old (of_pair held) v left plan.new result }
{
    if v as u64 == plan[COUNT_PLACE] {
        return Answer::Consistent(left);
    }
    if let Some(known) = recall(plan, v, held)
        && known < left
    {
        return Answer::Inconsistent(left - known);
    }
    let size = plan[v * ROW_WORDS];
    let next = plan[v * ROW_WORDS + 1] as usize;
    let mut needs = PairSet::at(plan, v * ROW_WORDS + 2);
    let mut rest = left;
    for x in 0..size {
        if rest == 0 {
            return Answer::Spent(0);
        }
        rest -= 1;
        let row = PairSet::at(sat, (v * VALUES + x as usize) * SET_WORDS);
        let tried = held.with(row);
        if covered(plan, v, tried) {
            let deeper = descend(sat, plan, tried, next, rest);
            let Answer::Inconsistent(t) = deeper else {
                plan[v * ROW_WORDS] = x;
                return deeper;
            };
            rest = t;
            let needed = PairSet::at(plan, NOTES_BEGIN + next * NOTE_WORDS);
            needs = needs.with(needed);
        }
    }
    note(plan, v, needs, held, left - rest);
    Answer::Inconsistent(rest)
}

// Goes through the unassigned variables from v on.
pub fn search(sat: &Sat, plan: &mut Plan, held: PairSet, v: usize, used: u32, limit: u32) -> Answer
    requires { Searchable plan.old v }
    ensures finds { (sizes vals : List ℕ) → PlanFor sizes vals plan.old v
        → Searches pair_clauses (Knows sizes sat.now plan.old) sizes (in_set sat.now) (in_plan plan.old) vals (of_pair held) v used limit (afterwards vals plan.new result) result }
    ensures long { length plan.new ≡ length plan.old }
{
    let left = trials_left(used, limit);
    let answer = descend(sat, plan, held, v, left);
    with_trials_made(answer, used, left)
}
