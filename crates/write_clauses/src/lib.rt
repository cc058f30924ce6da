// The clauses of a plant sheet, written: from the tables of literal counts and literals to the sheet's bits. Each function
// answers with the place after what it put; `Puts` says so, and that every other bit stays.
#![tactic(auto)]

ghost use Rattle.std.specs.Prelude.{◌+◌, ◌*◌, ◌≤◌, ◌<◌, ◌^◌, ◌≡◌, length};
ghost use Rattle.model.specs.Lists.{All, in_turn};
ghost use Rattle.model.specs.Tables.{total, literals, clauses as clauses_of, literal_written, clause_written};
ghost use Rattle.theory.specs.Longest.{literal_bits};
ghost use Rattle.theory.specs.Puts.{Puts, bits_of};
ghost use Rattle.readings.specs.Lengths.{clause_bytes};
ghost use Rattle.table_rules.specs.Triple.{literal_of};
ghost use Rattle.write_clauses.specs.Narrow.{Narrow};

use readings::{COUNT_BITS, LITERAL_BITS};

// What a one of a literal's variable and of its sign counts in the literal's field.
const VARIABLE_WEIGHT: u32 = 32;

const SIGN_WEIGHT: u32 = 16;

// Puts one literal, as one field: variable, sign, value.
fn literal(sheet: &mut [u8], place: usize, triple: [u8; 3]) -> usize
    requires { Narrow (literal_of triple) × (place + literal_bits ≤ 8 * length sheet.old) × (8 * length sheet.old < 2 ^ 64) }
    ensures { Puts place (literal_written (literal_of triple)) (bits_of sheet.old) result (bits_of sheet.new) }
{
    let [variable, sign, value] = triple;
    let field = u32::from(variable) * VARIABLE_WEIGHT
        + u32::from(sign) * SIGN_WEIGHT
        + u32::from(value);
    bits::put(sheet, place, LITERAL_BITS, field)
}

// Puts one clause: its literal count, then its literals.
fn clause(sheet: &mut [u8], place: usize, lits: &[u8]) -> usize
    requires { (length lits.now ≤ clause_bytes) × All Narrow (literals lits.now) × (place + length (clause_written (literals lits.now)) ≤ 8 * length sheet.old) × (8 * length sheet.old < 2 ^ 64) }
    ensures { Puts place (clause_written (literals lits.now)) (bits_of sheet.old) result (bits_of sheet.new) }
{
    let triples = table_rules::triples(lits);
    let mut at = bits::put(sheet, place, COUNT_BITS, triples.len() as u32);
    for &triple in triples {
        at = literal(sheet, at, triple);
    }
    at
}

// Puts the clauses.
pub fn clauses(sheet: &mut [u8], place: usize, counts: &[u8], lits: &[u8]) -> usize
    requires { All (λ n. n ≤ 15) counts.now × (length lits.now ≡ 3 * total counts.now) × All Narrow (literals lits.now)
        × (place + length (in_turn clause_written (clauses_of counts.now lits.now)) ≤ 8 * length sheet.old) × (8 * length sheet.old < 2 ^ 64) }
    ensures { Puts place (in_turn clause_written (clauses_of counts.now lits.now)) (bits_of sheet.old) result (bits_of sheet.new) }
{
    let mut at = place;
    let mut left = lits;
    for &count in counts {
        let (next, others) = left.split_at(3 * usize::from(count));
        at = clause(sheet, at, next);
        left = others;
    }
    at
}
