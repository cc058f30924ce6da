// Each decision variable's best value, found once a run from the plant's tables and handed in as one word: the cheapest,
// or by a sheet of edition 2 the one of greatest weight, and the lowest on a tie. Nothing below a run looks at costs or
// weights to find a best value: the root is this word, and a child's best state has one of its digits replaced.
#![tactic(auto)]

ghost use Rattle.std.specs.Prelude.{◌≡◌, List, ℕ, ◌*◌, ◌≤◌, length, take};
ghost use Rattle.model.specs.Lists.{All};
ghost use Rattle.model.specs.Sheet.{Plant};
ghost use Rattle.model.specs.Order.{better};
ghost use Rattle.theory.specs.Plant.{Sized};
ghost use Rattle.theory.specs.Tables.{Tabled};
ghost use Rattle.theory.specs.Value.{Better, BestValue, PreferredValues};

use limits::VALUES;

// Whether a figure is better than another: of costs the lesser, of weights the greater.
fn better(weighed: bool, a: u16, b: u16) -> bool
    ensures { result ≡ better weighed a b }
{
    if weighed {
        return a > b;
    }
    a < b
}

// The best of the values of a variable whose figures begin a row, the lowest on a tie.
pub fn best(row: &[u16], size: usize, weighed: bool) -> usize
    requires { Sized size × (size ≤ length row.now) }
    ensures { BestValue (Better weighed) (take size row.now) result }
{
    let mut value = 0;
    for x in 1..size {
        if better(weighed, row[x], row[value]) {
            value = x;
        }
    }
    value
}

// The word that hands in the best values of the d decision variables, from the tables of a plant.
pub fn preferred(sizes: &[u8], costs: &[u16], d: usize, weighed: bool) -> u64
    requires { (d ≤ 16) × (d ≤ length sizes.now) × (16 * d ≤ length costs.now) × All Sized (take d sizes.now) }
    ensures { (p : Plant) (counts lits : List ℕ) → Tabled p d sizes.now costs.now counts lits → PreferredValues weighed p result }
{
    let mut word = 0;
    for v in 0..d {
        let x = best(&costs[VALUES * v..], usize::from(sizes[v]), weighed);
        word += (x as u64) << (60 - 4 * v);
    }
    word
}
