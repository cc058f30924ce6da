// The calls on tables for a C program, on numbers and lent buffers: each returns a refusal's number, or 0 after it has written
// the sheet or the tables. `leading_c` has them for C.
#![tactic(auto)]

ghost use Rattle.std.specs.Prelude.{◌≡◌, [], ◌∷◌, ◌≤◌, length, get_or};
ghost use Rattle.model.specs.Lists.{filled};
ghost use Rattle.model.specs.TableCalls.{write_export, read_export};
ghost use Rattle.theory.specs.Tables.{tables_given};
ghost use Rattle.read_call.specs.Lent.{tables_lent};
ghost use Rattle.export_tables.specs.Exports.{WriteTells, ReadTells};

use read_call::read_call;
use readings::{COST_ENTRIES, COUNT_ENTRIES, LITERAL_BYTES, NUMBERS, SIZE_ENTRIES};
use table_rules::Tables;
use write_call::write_call;

// Writes the number of bytes to its word.
fn told(word: &mut [u32], n: u32) -> u32
    requires { 1 ≤ length word.old }
    ensures { (result ≡ 0) × (word.new ≡ filled (n ∷ []) word.old) }
{
    word[0] = n;
    0
}

// The writing call: the sheet of the tables goes to the front of `sheet`, and the number of its bytes to the word of `bytes`.
pub fn leading_write(
    sizes: &[u8],
    costs: &[u16],
    counts: &[u8],
    literals: &[u8],
    sheet: &mut [u8],
    decisions: u32,
    states: u32,
    clauses: u32,
    bytes: &mut [u32; 1],
) -> u32
    ensures equation { write_export (tables_given decisions states clauses sizes.now costs.now counts.now literals.now) sheet.old (get_or bytes.old 0 0) ≡ (result, sheet.new, get_or bytes.new 0 0) }
    ensures right { WriteTells (tables_given decisions states clauses sizes.now costs.now counts.now literals.now) result sheet.new (get_or bytes.new 0 0) }
{
    let tables = Tables {
        decisions,
        states,
        clauses,
        sizes,
        costs,
        counts,
        lits: literals,
    };
    match write_call(&tables, sheet) {
        Err(refusal) => refusal.number(),
        Ok(n) => told(bytes, n),
    }
}

// The reading call: the tables of the sheet go to the front of the lent ones, and its three numbers to `numbers`.
pub fn leading_read(
    sheet: &[u8],
    sizes: &mut [u8; SIZE_ENTRIES],
    costs: &mut [u16; COST_ENTRIES],
    counts: &mut [u8; COUNT_ENTRIES],
    literals: &mut [u8; LITERAL_BYTES],
    numbers: &mut [u32; NUMBERS],
) -> u32
    ensures equation { read_export sheet.now (tables_lent sizes.old costs.old counts.old literals.old numbers.old)
        ≡ (result, tables_lent sizes.new costs.new counts.new literals.new numbers.new) }
    ensures right { ReadTells sheet.now result (tables_lent sizes.new costs.new counts.new literals.new numbers.new) }
{
    match read_call(sheet, sizes, costs, counts, literals, numbers) {
        Err(refused) => refused.number(),
        Ok(()) => 0,
    }
}
