// The search on a plant of more than 128 clauses: a set is eight words. It writes each value that it tries into the bytes of
// the assignment, and takes it back where it finds none.
#![tactic(auto)]

ghost use Rattle.std.specs.Prelude.{◌<◌, ◌≤◌, MatchOption, length};
ghost use Rattle.clauses.specs.Numbers.{most_clauses, uses_words};
ghost use Rattle.clauses.specs.Sets.{in_set};
ghost use Rattle.trials.specs.Searches.{Lent, Starts, NextFree, Any, Searches};
ghost use Rattle.row_search.specs.Room.{Room};

use clauses::sets::{SET_WORDS, Set, covers_with, joined, joined_if, store_less};
use limits::{UNASSIGNED, VALUES};
use trials::Answer;

// Stores in each row of `last` the clauses that are due at its variable, and returns those that are satisfied.
pub fn start(vals: &[u8], sat: &[u64], uses: &[u64], last: &mut [u64]) -> Set
    requires { Lent uses_words vals.now sat.now uses.now last.old }
    ensures { Starts most_clauses vals.now sat.now uses.now (in_set last.new) (in_set result 0) }
{
    let mut held = [0u64; SET_WORDS];
    let mut free = [0u64; SET_WORDS];
    for v in (0..vals.len()).rev() {
        store_less(last, uses, v, free);
        let a = vals[v];
        // An array that a call returns takes a name of its own first: no proof is generated where it is laid over another.
        let wait = joined_if(free, uses, v, a == UNASSIGNED);
        free = wait;
        let row = v * VALUES + usize::from(a);
        let hold = joined_if(held, sat, row, a != UNASSIGNED);
        held = hold;
    }
    held
}

// The first unassigned variable from `from` on.
fn next_free(vals: &[u8], from: usize) -> Option<usize>
    requires { from ≤ length vals.now }
    ensures { MatchOption result (NextFree vals.now from (length vals.now)) (λ v. (v < length vals.now) × NextFree vals.now from v) }
{
    for v in from..vals.len() {
        if vals[v] == UNASSIGNED {
            return Some(v);
        }
    }
    None
}

// Goes through the variables from `from` on.
// Each descent leaves one variable fewer to set: `fewer-set` in trials/proofs/Descents.
pub fn search(
    sizes: &[u8],
    sat: &[u64],
    last: &[u64],
    vals: &mut [u8],
    held: Set,
    from: usize,
    used: u32,
    limit: u32,
) -> Answer
    requires { Room sizes.now sat.now last.now vals.old from }
    ensures { Searches most_clauses Any sizes.now (in_set sat.now) (in_set last.now) vals.old (in_set held 0) from used limit vals.new result }
{
    let Some(v) = next_free(vals, from) else {
        return Answer::Consistent(used);
    };
    let size = sizes[v];
    let mut u = used;
    for x in 0..size {
        if u >= limit {
            vals[v] = UNASSIGNED;
            return Answer::Spent(u);
        }
        vals[v] = x;
        u += 1;
        let row = v * VALUES + usize::from(x);
        if covers_with(last, v, held, sat, row) {
            let more = joined(held, sat, row);
            match search(sizes, sat, last, vals, more, v + 1, u, limit) {
                Answer::Consistent(t) => {
                    return Answer::Consistent(t);
                }
                Answer::Spent(t) => {
                    vals[v] = UNASSIGNED;
                    return Answer::Spent(t);
                }
                Answer::Inconsistent(t) => {
                    u = t;
                }
            }
        }
    }
    vals[v] = UNASSIGNED;
    Answer::Inconsistent(u)
}
