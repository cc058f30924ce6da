// The plan of a test of at most 128 clauses, whose sets are two words, and what a search notes in it. A plan has a row of
// four words for each unassigned variable: its size, the next unassigned variable, and the clauses that are due. So each
// variable costs a search little. Behind the rows is the number of variables, and behind that a note of five words for each
// variable: where a search finds no values from the variable on, by which clauses it went, which of these were satisfied, and
// how many trials it took. Where it comes to the variable again with the same ones satisfied, it would find none by as many.
#![tactic(auto)]

ghost use Rattle.std.specs.Prelude.{◌≡◌, ◌+◌, ◌*◌, ◌<◌, ◌≤◌, IfSome, length};
ghost use Rattle.std.specs.Int.Bits.{bit_and};
ghost use Rattle.clauses.specs.Numbers.{variables, pair_clauses};
ghost use Rattle.clauses.specs.Pairs.{of_pair};
ghost use Rattle.clauses.specs.Sets.{Within};
ghost use Rattle.trials.specs.Searches.{Lent};
ghost use Rattle.plan.specs.Plans.{plan_words, row_words, in_plan, Planned, Recalled, noted, filled_from, afterwards};

use clauses::sets::{PairSet, SET_WORDS, Sat};
use limits::{UNASSIGNED, VALUES, VARIABLES};
use trials::{Answer, TRIALS_BELOW};

// The words of a row.
pub const ROW_WORDS: usize = 4;

// The place of the number of variables, behind the rows.
pub const COUNT_PLACE: usize = VARIABLES * ROW_WORDS;

// Where the notes begin.
pub const NOTES_BEGIN: usize = COUNT_PLACE + 1;

// The words of a note.
pub const NOTE_WORDS: usize = 5;

// All words. There is room for a note behind the last variable, since that is the last one's next.
pub const PLAN_WORDS: usize = NOTES_BEGIN + (VARIABLES + 1) * NOTE_WORDS;

pub type Plan = [u64; PLAN_WORDS];

// In place of a note's trials: nothing is noted.
pub const NONE_NOTED: u64 = TRIALS_BELOW;

// What is made of the variables from one on: the clauses that they satisfy, the clauses that one of them leaves open, and the first unassigned one.
#[derive(Clone, Copy)]
pub struct Sets {
    pub held: PairSet,
    pub open: PairSet,
    pub next: usize,
}

// Takes in the variable v, after those behind it.
fn taken_in(
    s: Sets,
    sizes: &[u8],
    vals: &[u8],
    sat: &Sat,
    uses: &[u64],
    plan: &mut Plan,
    v: usize,
) -> Sets
    requires { Lent plan_words vals.now sat.now uses.now plan.old × (v < length vals.now) × (length vals.now ≡ length sizes.now) }
    ensures { Planned sizes.now vals.now sat.now uses.now plan.old s.next (of_pair s.held) (of_pair s.open) (v + 1)
        → Planned sizes.now vals.now sat.now uses.now plan.new result.next (of_pair result.held) (of_pair result.open) v }
{
    plan[NOTES_BEGIN + v * NOTE_WORDS + 4] = NONE_NOTED;
    let a = vals[v];
    if a == UNASSIGNED {
        let mentions = PairSet::at(uses, v * SET_WORDS);
        let due = mentions.without(s.open);
        plan[v * ROW_WORDS] = u64::from(sizes[v]);
        plan[v * ROW_WORDS + 1] = s.next as u64;
        plan[v * ROW_WORDS + 2] = due.first;
        plan[v * ROW_WORDS + 3] = due.second;
        return Sets {
            open: s.open.with(mentions),
            next: v,
            ..s
        };
    }
    let row = v * VALUES + usize::from(a);
    Sets {
        held: s.held.with(PairSet::at(sat, row * SET_WORDS)),
        ..s
    }
}

// Makes the plan, from the last variable to the first.
pub fn start(sizes: &[u8], vals: &[u8], sat: &Sat, uses: &[u64], plan: &mut Plan) -> Sets
    requires { Lent plan_words vals.now sat.now uses.now plan.old × (length vals.now ≡ length sizes.now) × (length plan.old ≡ plan_words) }
    ensures { Planned sizes.now vals.now sat.now uses.now plan.new result.next (of_pair result.held) (of_pair result.open) 0 }
{
    plan[COUNT_PLACE] = vals.len() as u64;
    let mut s = Sets {
        held: PairSet::EMPTY,
        open: PairSet::EMPTY,
        next: vals.len(),
    };
    for v in (0..vals.len()).rev() {
        s = taken_in(s, sizes, vals, sat, uses, plan, v);
    }
    s
}

// Whether each clause due at v is in the set.
pub fn covered(plan: &[u64], v: usize, set: PairSet) -> bool
    requires { v * row_words + row_words ≤ length plan.now }
    ensures { Within pair_clauses (in_plan plan.now v) (of_pair set) result }
{
    let due = plan[v * ROW_WORDS + 2];
    if due & set.first != due {
        return false;
    }
    let more = plan[v * ROW_WORDS + 3];
    more & set.second == more
}

// The trials by which the search found no values from v on when the clauses that it went by were satisfied as now.
pub fn recall(plan: &Plan, v: usize, set: PairSet) -> Option<u32>
    requires { v < variables }
    ensures { IfSome result (λ trials. Recalled plan.now v set.first set.second trials) }
{
    let at = NOTES_BEGIN + v * NOTE_WORDS;
    let trials = u32::try_from(plan[at + 4]).ok()?;
    if plan[at] & set.first != plan[at + 2] {
        return None;
    }
    if plan[at + 1] & set.second != plan[at + 3] {
        return None;
    }
    Some(trials)
}

// Notes that the search found no values from v on, by so many trials, going by the needed clauses of the set.
pub fn note(plan: &mut Plan, v: usize, needs: PairSet, set: PairSet, trials: u32)
    requires { v < variables }
    ensures { plan.new ≡ noted plan.old v needs.first needs.second (bit_and needs.first set.first) (bit_and needs.second set.second) trials }
{
    let at = NOTES_BEGIN + v * NOTE_WORDS;
    plan[at] = needs.first;
    plan[at + 1] = needs.second;
    plan[at + 2] = needs.first & set.first;
    plan[at + 3] = needs.second & set.second;
    plan[at + 4] = u64::from(trials);
}

// Takes over the values that the plan notes for the unassigned variables.
fn fill(vals: &mut [u8], plan: &Plan)
    requires { length vals.old ≤ variables }
    ensures { vals.new ≡ filled_from vals.old plan.now 0 }
{
    for (v, value) in vals.iter_mut().enumerate() {
        if *value == UNASSIGNED {
            *value = (plan[v * ROW_WORDS] % 256) as u8;
        }
    }
}

// Takes them over if the answer is that there are values.
pub fn take_found(vals: &mut [u8], plan: &Plan, a: Answer) -> Answer
    requires { length vals.old ≤ variables }
    ensures { (result ≡ a) × (vals.new ≡ afterwards vals.old plan.now a) }
{
    if let Answer::Consistent(_) = a {
        fill(vals, plan);
    }
    a
}
