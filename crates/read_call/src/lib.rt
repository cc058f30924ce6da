// The call that reads a sheet into lent tables of the form that `write_call` takes, without gaps: the sheet's refusal, or its
// numbers and tables at the front of the lent ones. The sheet is decoded into tables of the call's own, so that a refusal
// leaves the lent ones as they were.
#![tactic(auto)]

ghost use Rattle.std.specs.Prelude.{◌≡◌, ◌*◌, ◌≤◌, length};
ghost use Rattle.model.specs.Lists.{All, in_turn, filled};
ghost use Rattle.model.specs.Tables.{Tables};
ghost use Rattle.model.specs.TableCalls.{read_tables, tables_after};
ghost use Rattle.theory.specs.Plant.{Sized};
ghost use Rattle.theory.specs.Tables.{rows};
ghost use Rattle.theory.specs.WriteRead.{ReadPromises};
ghost use Rattle.read_call.specs.Lent.{tables_lent, Answers};

use limits::VALUES;
use readings::{COST_ENTRIES, COUNT_ENTRIES, LITERAL_BYTES, NUMBERS, SIZE_ENTRIES};
use refusal::Refusal;
use sheet::Numbers;
use table_rules::total;

// Fills the first places.
fn fill<T: Copy>(out: &mut [T], items: &[T])
    requires { length items.now ≤ length out.old }
    ensures { out.new ≡ filled items.now out.old }
{
    out[..items.len()].copy_from_slice(items);
}

// Fills the first places with the costs of the decision variables, each variable's after those of the one before.
fn fill_costs(out: &mut [u16], sizes: &[u8], costs: &[u16])
    requires { All Sized sizes.now × (16 * length sizes.now ≤ length costs.now) × (16 * length sizes.now ≤ length out.old) }
    ensures { out.new ≡ filled (in_turn (λ row. row) (rows sizes.now costs.now)) out.old }
{
    let mut at = 0;
    let mut left = costs;
    for &size in sizes {
        let (row, others) = left.split_at(VALUES);
        let n = usize::from(size);
        out[at..at + n].copy_from_slice(&row[..n]);
        at += n;
        left = others;
    }
}

// Reads the sheet into four tables that may hold anything after, and from these to the front of the lent ones.
fn read_through(
    sheet: &[u8],
    domains: &mut [u8; SIZE_ENTRIES],
    prices: &mut [u16; COST_ENTRIES],
    lengths: &mut [u8; COUNT_ENTRIES],
    bytes: &mut [u8; LITERAL_BYTES],
    sizes: &mut [u8; SIZE_ENTRIES],
    costs: &mut [u16; COST_ENTRIES],
    counts: &mut [u8; COUNT_ENTRIES],
    lits: &mut [u8; LITERAL_BYTES],
    numbers: &mut [u32; NUMBERS],
) -> Result<(), Refusal>
    ensures { (let before : Tables = tables_lent sizes.old costs.old counts.old lits.old numbers.old in
        let after : Tables = tables_lent sizes.new costs.new counts.new lits.new numbers.new in
        Answers result (read_tables sheet.now) × (after ≡ tables_after before (read_tables sheet.now))) }
{
    let Numbers {
        decisions,
        states,
        clauses,
    } = sheet::read(sheet, false, domains, prices, lengths, bytes)?;
    fill(sizes, &domains[..decisions + states]);
    fill_costs(costs, &domains[..decisions], prices);
    fill(counts, &lengths[..clauses]);
    fill(lits, &bytes[..3 * total(&lengths[..clauses])]);
    fill(numbers, &[decisions as u32, states as u32, clauses as u32]);
    Ok(())
}

// Reads the sheet to the front of the lent tables; the numbers are of decision variables, of state variables and of clauses.
pub fn read_call(
    sheet: &[u8],
    sizes: &mut [u8; SIZE_ENTRIES],
    costs: &mut [u16; COST_ENTRIES],
    counts: &mut [u8; COUNT_ENTRIES],
    lits: &mut [u8; LITERAL_BYTES],
    numbers: &mut [u32; NUMBERS],
) -> Result<(), Refusal>
    ensures equation { (let before : Tables = tables_lent sizes.old costs.old counts.old lits.old numbers.old in
        let after : Tables = tables_lent sizes.new costs.new counts.new lits.new numbers.new in
        Answers result (read_tables sheet.now) × (after ≡ tables_after before (read_tables sheet.now))) }
    ensures right { ReadPromises sheet.now (read_tables sheet.now) (tables_lent sizes.new costs.new counts.new lits.new numbers.new) }
{
    let mut domains = [0u8; SIZE_ENTRIES];
    let mut prices = [0u16; COST_ENTRIES];
    let mut lengths = [0u8; COUNT_ENTRIES];
    let mut bytes = [0u8; LITERAL_BYTES];
    read_through(
        sheet,
        &mut domains,
        &mut prices,
        &mut lengths,
        &mut bytes,
        sizes,
        costs,
        counts,
        lits,
        numbers,
    )
}
