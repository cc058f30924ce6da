// The two tables of sets that are made once for a plant: `sat` has a row for each variable and value, the clauses that it
// satisfies; `uses` has a row for each variable, the clauses that mention it.
ghost use Rattle.std.specs.Prelude.{◌<◌, ◌≤◌, length};
ghost use Rattle.model.specs.Lists.{All};
ghost use Rattle.model.specs.Tables.{literals, clauses};
ghost use Rattle.clauses.specs.Numbers.{variables, most_clauses, sat_words, uses_words};
ghost use Rattle.clauses.specs.Sets.{Empty, Marked, literal_rows, Entered};
ghost use Rattle.clauses.specs.Tables.{Tables, Prepared};

use super::evaluation::holds;
use super::sets::{Sat, add};
use limits::{UNASSIGNED, VALUES};

// A plant as the test goes by it: its number of decision variables, its decoded tables, and the two tables of sets that are
// made of its clauses.
#[derive(Clone, Copy)]
pub struct Decoded<'a> {
    pub decisions: usize,
    pub sizes: &'a [u8],
    pub counts: &'a [u8],
    pub lits: &'a [u8],
    pub sat: &'a Sat,
    pub uses: &'a [u64],
}

// Puts the clause c into the rows of the values at which one of its literals holds.
fn mark(sat: &mut [u64], var: usize, sign: u8, value: u8, c: usize)
    requires { (var < variables) × (sat_words ≤ length sat.old) × (c < most_clauses) }
    ensures { Marked (literal_rows var sign value) sat.old c sat.new }
{
    // An equal literal holds at one value, so that there is no need to try each.
    if sign == 0 {
        if value < UNASSIGNED {
            add(sat, var * VALUES + usize::from(value), c);
        }
        return;
    }
    for x in 0..UNASSIGNED {
        if holds(x, sign, value) {
            add(sat, var * VALUES + usize::from(x), c);
        }
    }
}

// Puts the clause c, whose literals the part holds, into its rows of both tables.
fn mark_clause(sat: &mut [u64], uses: &mut [u64], part: &[u8], c: usize)
    requires { All (λ l. l.variable < variables) (literals part.now) × (sat_words ≤ length sat.old) × (uses_words ≤ length uses.old) × (c < most_clauses) }
    ensures { Entered (literals part.now) c sat.old uses.old sat.new uses.new }
{
    let (literals, _) = part.as_chunks::<3>();
    for [variable, sign, value] in literals {
        let var = usize::from(*variable);
        mark(sat, var, *sign, *value, c);
        add(uses, var, c);
    }
}

// Fills the two tables of a plant, which are empty.
pub fn prepare(counts: &[u8], lits: &[u8], sat: &mut [u64], uses: &mut [u64])
    requires { Tables variables counts.now lits.now × (sat_words ≤ length sat.old) × (uses_words ≤ length uses.old) × Empty sat.old × Empty uses.old }
    ensures { Prepared (clauses counts.now lits.now) sat.new uses.new }
{
    let mut at = 0;
    for (i, count) in counts.iter().enumerate() {
        let end = at + 3 * usize::from(*count);
        mark_clause(sat, uses, &lits[at..end], i);
        at = end;
    }
}
