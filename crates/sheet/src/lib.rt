// The sheet reader: from a lent plant sheet of any length to decoded tables, or to the ground on which its author is refused.
// The caller says which edition it takes: the one whose figures are weights, or the one whose figures are costs.
// The tables are the caller's: `sizes` holds the domain sizes, decision variables first; `costs` sixteen entries for each
// decision variable, of costs or of weights; `counts` the literal count of each clause; `lits` the literals in reading order, three bytes each.
// After a refusal, and beyond what was read, the tables hold anything.
#![tactic(auto)]

ghost use Rattle.std.specs.Prelude.{◌≡◌, ◌+◌, ◌*◌, ◌≤◌, ◌<◌, ◌^◌, length, get_or, eqb, IfOk};
ghost use Rattle.model.specs.Sheet.{edition_of, read_end, read_sheet, Plant};
ghost use Rattle.readings.specs.Lengths.{size_entries, cost_entries, count_entries, literal_bytes};
ghost use Rattle.theory.specs.Longest.{head_bits};
ghost use Rattle.readings.specs.Answers.{read_of};
ghost use Rattle.sheet.specs.Answers.{head_of, Allowed, answer_of, Tabled};

use bits::Reader;
use limits::{CLAUSES, DECISIONS, WEIGHED_DECISIONS};
use readings::STATES;
pub use readings::{CLAUSE_BYTES, COST_ENTRIES, COUNT_ENTRIES, LITERAL_BYTES, SIZE_ENTRIES};
use refusal::AuthorGround;

// How many decision variables, state variables and clauses there are.
#[derive(Clone, Copy)]
pub struct Numbers {
    pub decisions: usize,
    pub states: usize,
    pub clauses: usize,
}

// The number of the edition whose figures are costs, and of the one whose figures are weights.
const COST_EDITION: u32 = 1;

const WEIGHT_EDITION: u32 = 2;

// Whether a sheet's first byte says the edition whose figures are weights.
pub fn weighed(sheet: &[u8]) -> bool
    ensures { result ≡ eqb (get_or sheet.now 0 0) 2 }
{
    sheet
        .first()
        .is_some_and(|edition| u32::from(*edition) == WEIGHT_EDITION)
}

// The number of the edition.
#[tactic(auto, unfolding(model::specs::Sheet::edition1, model::specs::Sheet::edition2))]
fn number(weighed: bool) -> u32
    ensures { result ≡ (edition_of weighed).number }
{
    if weighed {
        WEIGHT_EDITION
    } else {
        COST_EDITION
    }
}

// The most decision variables of the edition.
#[tactic(auto, unfolding(model::specs::Sheet::edition1, model::specs::Sheet::edition2))]
fn most(weighed: bool) -> usize
    ensures { (result ≡ (edition_of weighed).most) × (result ≤ 16) }
{
    if weighed {
        WEIGHED_DECISIONS
    } else {
        DECISIONS
    }
}

// Reads the edition and the three counts, with which a sheet begins.
#[tactic(auto, unfolding(model::specs::Sheet::read_sheet, model::specs::Sheet::then, model::specs::Sheet::decisions_allowed))]
fn head(reader: &mut Reader, weighed: bool) -> Result<Numbers, AuthorGround>
    requires { reader.old.place ≡ 0 }
    ensures sheet { reader.new.sheet ≡ reader.old.sheet }
    ensures place { IfOk result (λ _. reader.new.place ≡ head_bits) }
    ensures allowed { Allowed result }
    ensures read { head_of (edition_of weighed) reader.old.sheet.now result ≡ read_sheet (edition_of weighed) reader.old.sheet.now }
{
    let edition = readings::field(reader, 8)?;
    if edition != number(weighed) {
        return Err(AuthorGround::SheetEdition);
    }
    let decisions = readings::field(reader, 5)? as usize;
    if decisions < 1 || decisions > most(weighed) {
        return Err(AuthorGround::SheetParts);
    }
    let states = readings::field(reader, 6)? as usize;
    if states > STATES {
        return Err(AuthorGround::SheetHidden);
    }
    let clauses = readings::field(reader, 10)? as usize;
    if clauses > CLAUSES {
        return Err(AuthorGround::SheetClauses);
    }
    Ok(Numbers {
        decisions,
        states,
        clauses,
    })
}

// Looks at the filler up to the byte's end, after which the sheet must end.
fn ending(reader: &Reader) -> Result<(), AuthorGround>
    requires { reader.now.place + 7 < 2 ^ 64 }
    ensures { (p : Plant) → read_of (λ _. p) (8 * length reader.now.sheet.now) result ≡ read_end reader.now.sheet.now p reader.now.place }
{
    let n = (8 - reader.place % 8) % 8;
    if bits::value(reader.sheet, reader.place, n) != 0 {
        return Err(AuthorGround::SheetFiller);
    }
    let end = reader.place + n;
    if end / 8 != reader.sheet.len() {
        return Err(AuthorGround::SheetLong);
    }
    Ok(())
}

// Reads a plant sheet of the edition into the tables, or says on what ground its author is refused.
pub fn read(
    sheet: &[u8],
    weighed: bool,
    sizes: &mut [u8],
    costs: &mut [u16],
    counts: &mut [u8],
    lits: &mut [u8],
) -> Result<Numbers, AuthorGround>
    requires { (size_entries ≤ length sizes.old) × (cost_entries ≤ length costs.old) × (count_entries ≤ length counts.old) × (literal_bytes ≤ length lits.old) }
    ensures { (answer_of sheet.now sizes.new costs.new counts.new lits.new result ≡ read_sheet (edition_of weighed) sheet.now)
        × Tabled sizes.new costs.new counts.new lits.new result }
{
    let mut reader = Reader::over(sheet, 0);
    let numbers = head(&mut reader, weighed)?;
    let (d, s) = (numbers.decisions, numbers.states);
    sheet_variables::variables(&mut reader, weighed, d, s, sizes, costs)?;
    sheet_clauses::clauses(&mut reader, numbers.clauses, &sizes[..d + s], counts, lits)?;
    ending(&reader)?;
    Ok(numbers)
}
