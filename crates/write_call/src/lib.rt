// The call that writes a sheet of tables into a lent buffer, whatever these are: the refusals in their order, or the sheet at
// the buffer's front.
#![tactic(auto)]

ghost use Rattle.std.specs.Prelude.{◌≡◌};
ghost use Rattle.model.specs.TableCalls.{write_call};
ghost use Rattle.theory.specs.WriteRead.{WritePromises};
ghost use Rattle.refusal.specs.Refusal.{written_of};
ghost use Rattle.table_rules.specs.Given.{given_by};

use refusal::{HostGround, Refusal};
use table_rules::Tables;

// Writes the sheet of the tables to the front of the lent one.
pub fn write_call(tables: &Tables, sheet: &mut [u8]) -> Result<u32, Refusal>
    ensures equation { write_call (given_by tables.now) sheet.old ≡ record { answer = written_of result; after = sheet.new } }
    ensures right { WritePromises (given_by tables.now) (written_of result) sheet.new }
{
    let Tables {
        decisions,
        states,
        clauses,
        sizes,
        costs,
        counts,
        lits,
    } = *tables;
    table_rules::length_ground(
        decisions,
        states,
        clauses,
        sizes,
        costs.len(),
        counts,
        lits.len(),
    )?;
    table_rules::author_ground(decisions, states, clauses, sizes, counts, lits)?;
    let bytes = write_sheet::sheet_bytes(sizes.len(), costs.len(), counts.len(), lits.len());
    let room = sheet.len();
    if room < bytes {
        return Err(Refusal::Host(HostGround::BadSheetRoom));
    }
    write_sheet::write(&mut sheet[..bytes], tables);
    Ok(bytes as u32)
}
