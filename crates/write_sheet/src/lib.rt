// A whole plant sheet, written of tables that no rule refuses into a lent part that is as long as the sheet.
#![tactic(auto)]

ghost use Rattle.std.specs.Prelude.{◌≡◌, ◌++◌, ◌+◌, ◌-◌, ◌*◌, ◌/◌, ◌%◌, ◌≤◌, ◌<◌, ◌^◌, length, replicate};
ghost use Rattle.model.specs.Digits.{digits};
ghost use Rattle.model.specs.Sheet.{edition1};
ghost use Rattle.model.specs.Tables.{plant_of, sheet_of};
ghost use Rattle.theory.specs.Digits.{Below};
ghost use Rattle.theory.specs.Longest.{head_bits, literal_bits};
ghost use Rattle.theory.specs.Puts.{Puts, bits_of};
ghost use Rattle.readings.specs.Lengths.{size_entries, cost_entries, count_entries, literal_bytes};
ghost use Rattle.table_rules.specs.Given.{given_by};
ghost use Rattle.write_sheet.specs.Ruled.{Ruled};

use readings::{COST_BITS, COUNT_BITS, HEAD_BITS, LITERAL_BITS, SIZE_BITS};
use table_rules::Tables;

// The edition that is written.
const EDITION: u32 = 1;

// The bytes of the sheet that is written of tables of these lengths: the bits of all fields, rounded up.
pub fn sheet_bytes(sizes: usize, costs: usize, counts: usize, lits: usize) -> usize
    requires { (sizes ≤ size_entries) × (costs ≤ cost_entries) × (counts ≤ count_entries) × (lits ≤ literal_bytes) }
    ensures { result ≡ (head_bits + 4 * sizes + 16 * costs + 4 * counts + literal_bits * (lits / 3) + 7) / 8 }
{
    let bits = HEAD_BITS
        + SIZE_BITS * sizes
        + COST_BITS * costs
        + COUNT_BITS * counts
        + LITERAL_BITS * (lits / 3);
    (bits + 7) / 8
}

// Puts the edition and the three numbers at the front.
fn head(sheet: &mut [u8], tables: &Tables) -> usize
    requires { (tables.now.decisions < 2 ^ 5) × (tables.now.states < 2 ^ 6) × (tables.now.clauses < 2 ^ 10) × (head_bits ≤ 8 * length sheet.old) }
    ensures { Puts 0 (digits 2 8 1 ++ (digits 2 5 tables.now.decisions ++ (digits 2 6 tables.now.states ++ digits 2 10 tables.now.clauses))) (bits_of sheet.old) result (bits_of sheet.new) }
{
    let mut at = bits::put(sheet, 0, 8, EDITION);
    at = bits::put(sheet, at, 5, tables.decisions);
    at = bits::put(sheet, at, 6, tables.states);
    bits::put(sheet, at, 10, tables.clauses)
}

// Puts zero bits up to the byte's end.
fn filler(sheet: &mut [u8], place: usize) -> usize
    requires { (place ≤ 8 * length sheet.old) × (8 * length sheet.old < 2 ^ 64) }
    ensures { Puts place (replicate ((8 - place % 8) % 8) 0) (bits_of sheet.old) result (bits_of sheet.new) }
{
    bits::put(sheet, place, (8 - place % 8) % 8, 0)
}

// Writes the sheet of tables into a part of just its length. Callers learn too that each cost is a number of sixteen bits: of
// a slice in a struct nothing else says so.
pub fn write(sheet: &mut [u8], tables: &Tables)
    requires { Ruled (given_by tables.now) × (length sheet.old ≡ length (sheet_of edition1 (plant_of (given_by tables.now)))) }
    ensures { (sheet.new ≡ sheet_of edition1 (plant_of (given_by tables.now))) × Below (2 ^ 16) tables.now.costs.now }
{
    let decisions = tables.decisions as usize;
    let mut at = head(sheet, tables);
    at = write_variables::variables(sheet, at, decisions, tables.sizes, tables.costs);
    at = write_clauses::clauses(sheet, at, tables.counts, tables.lits);
    filler(sheet, at);
}
