// Literals and clauses under an assignment that is lent as bytes.
ghost use Rattle.std.specs.Prelude.{◌≡◌, true, false, map, ℕ, ◌<◌, length};
ghost use Rattle.model.specs.Lists.{All};
ghost use Rattle.model.specs.Consistency.{holds_at, clause_false, any_false};
ghost use Rattle.model.specs.Tables.{literals, clauses};
ghost use Rattle.theory.specs.Search.{nth};
ghost use Rattle.clauses.specs.Bytes.{given, fails_at};
ghost use Rattle.clauses.specs.Pairs.{of_pair};
ghost use Rattle.clauses.specs.Tables.{Tables};

use super::sets::PairSet;
use limits::UNASSIGNED;

// Whether a literal holds where its variable has the value a.
pub fn holds(a: u8, sign: u8, value: u8) -> bool
    ensures { result ≡ holds_at a sign value }
{
    if sign == 0 {
        return a == value;
    }
    a != value
}

// Whether a literal fails: its variable is assigned a value at which it does not hold.
pub fn literal_fails(a: u8, sign: u8, value: u8) -> bool
    ensures { result ≡ fails_at (given a) sign value }
{
    if a == UNASSIGNED {
        return false;
    }
    !holds(a, sign, value)
}

// Whether the clause whose literals the part holds is false: every literal fails.
pub fn clause_false(part: &[u8], vals: &[u8]) -> bool
    requires { All (λ l. l.variable < length vals.now) (literals part.now) }
    ensures { result ≡ clause_false (map given vals.now) (literals part.now) }
{
    let (literals, _) = part.as_chunks::<3>();
    for [variable, sign, value] in literals {
        if !literal_fails(vals[usize::from(*variable)], *sign, *value) {
            return false;
        }
    }
    true
}

// Whether the clause whose literals the part holds is false; where it is `clear` it is known not to be.
fn fails(part: &[u8], vals: &[u8], clear: bool) -> bool
    requires { All (λ l. l.variable < length vals.now) (literals part.now) × (clear ≡ true → clause_false (map given vals.now) (literals part.now) ≡ false) }
    ensures { result ≡ clause_false (map given vals.now) (literals part.now) }
{
    if clear {
        return false;
    }
    clause_false(part, vals)
}

// Whether some clause is false. None of the clauses in the set is, so that these need no look; where all
// are in it, nothing is left to ask.
pub fn any_false(counts: &[u8], lits: &[u8], vals: &[u8], clear: PairSet) -> bool
    requires { Tables (length vals.now) counts.now lits.now
        × ((c : ℕ) → of_pair clear c ≡ true → clause_false (map given vals.now) (nth (clauses counts.now lits.now) c) ≡ false) }
    ensures { result ≡ any_false (map given vals.now) (clauses counts.now lits.now) }
{
    if clear.has_all(counts.len()) {
        return false;
    }
    let mut at = 0;
    for (i, count) in counts.iter().enumerate() {
        let end = at + 3 * usize::from(*count);
        if fails(&lits[at..end], vals, clear.contains(i)) {
            return true;
        }
        at = end;
    }
    false
}
