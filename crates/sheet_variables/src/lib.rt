// The variables of a plant sheet: from the sheet's bits to the tables of sizes and costs, or of weights where the sheet is weighed.
#![tactic(auto)]

ghost use Rattle.std.specs.Prelude.{◌≡◌, map, ℕ, ◌+◌, ◌*◌, ◌≤◌, ◌<◌, ◌^◌, length, take, drop, IfOk};
ghost use Rattle.model.specs.Sheet.{edition_of, many, read_figure, read_decision, read_state, read_body};
ghost use Rattle.theory.specs.Tables.{rows};
ghost use Rattle.theory.specs.Longest.{state_bits};
ghost use Rattle.readings.specs.Lengths.{decision_bits, variable_bits, size_entries, cost_entries};
ghost use Rattle.readings.specs.Answers.{read_of};
ghost use Rattle.sheet_variables.specs.Rest.{rest_of};

use bits::Reader;
use limits::VALUES;
use readings::{COST_BITS, SIZE_BITS, WEIGHT_BITS};
use refusal::AuthorGround;

// Bits of a figure: of a weight, or of a cost.
#[tactic(auto, unfolding(model::specs::Sheet::edition1, model::specs::Sheet::edition2))]
fn figure_bits(weighed: bool) -> usize
    ensures { (result ≡ (edition_of weighed).cost_bits) × (result ≤ 16) }
{
    if weighed { WEIGHT_BITS } else { COST_BITS }
}

// Reads a figure, a cost or a weight: no weight is zero.
#[tactic(auto, unfolding(model::specs::Sheet::read_figure, model::specs::Sheet::then, model::specs::Sheet::edition1, model::specs::Sheet::edition2))]
fn figure(reader: &mut Reader, weighed: bool) -> Result<u16, AuthorGround>
    requires { reader.old.place + 16 < 2 ^ 64 }
    ensures sheet { reader.new.sheet ≡ reader.old.sheet }
    ensures place { reader.new.place ≤ reader.old.place + 16 }
    ensures read { read_of (λ c. c) reader.new.place result ≡ read_figure (edition_of weighed) reader.old.sheet.now reader.old.place }
{
    let value = readings::field(reader, figure_bits(weighed))?;
    if weighed && value == 0 {
        return Err(AuthorGround::SheetWeight);
    }
    Ok(value as u16)
}

// Reads one decision variable: its figures go to the front of the part that is lent.
#[tactic(auto, unfolding(model::specs::Sheet::read_decision, model::specs::Sheet::then))]
fn row(reader: &mut Reader, weighed: bool, costs: &mut [u16]) -> Result<u8, AuthorGround>
    requires { (reader.old.place + decision_bits < 2 ^ 64) × (16 ≤ length costs.old) }
    ensures sheet { reader.new.sheet ≡ reader.old.sheet }
    ensures place { reader.new.place ≤ reader.old.place + decision_bits }
    ensures size { IfOk result (λ n. n ≤ 16) }
    ensures read { read_of (λ n. take n costs.new) reader.new.place result ≡ read_decision (edition_of weighed) reader.old.sheet.now reader.old.place }
{
    let size = readings::field(reader, SIZE_BITS)? as u8 + 1;
    let figures = &mut costs[..usize::from(size)];
    for cost in figures.iter_mut() {
        *cost = figure(reader, weighed)?;
    }
    Ok(size)
}

// Reads the decision variables, one for each size.
fn decisions(
    reader: &mut Reader,
    weighed: bool,
    sizes: &mut [u8],
    costs: &mut [u16],
) -> Result<(), AuthorGround>
    requires { (reader.old.place + decision_bits * length sizes.old < 2 ^ 64) × (length sizes.old ≤ 16) × (cost_entries ≤ length costs.old) }
    ensures sheet { reader.new.sheet ≡ reader.old.sheet }
    ensures place { reader.new.place ≤ reader.old.place + decision_bits * length sizes.old }
    ensures lengths { IfOk result (λ _. map length (rows sizes.new costs.new) ≡ sizes.new) }
    ensures read { read_of (λ _. rows sizes.new costs.new) reader.new.place result
        ≡ many (read_decision (edition_of weighed) reader.old.sheet.now) (length sizes.old) reader.old.place }
{
    for (i, size) in sizes.iter_mut().enumerate() {
        *size = row(reader, weighed, &mut costs[VALUES * i..])?;
    }
    Ok(())
}

// Reads the state variables, one for each size.
fn states(reader: &mut Reader, sizes: &mut [u8]) -> Result<(), AuthorGround>
    requires { (reader.old.place + state_bits * length sizes.old < 2 ^ 64) × (length sizes.old ≤ 32) }
    ensures sheet { reader.new.sheet ≡ reader.old.sheet }
    ensures place { reader.new.place ≤ reader.old.place + state_bits * length sizes.old }
    ensures read { read_of (λ _. sizes.new) reader.new.place result ≡ many (read_state reader.old.sheet.now) (length sizes.old) reader.old.place }
{
    for size in sizes.iter_mut() {
        let less = readings::field(reader, SIZE_BITS)?;
        *size = less as u8 + 1;
    }
    Ok(())
}

// Reads the variables: d decision variables, then s state variables.
pub fn variables(
    reader: &mut Reader,
    weighed: bool,
    d: usize,
    s: usize,
    sizes: &mut [u8],
    costs: &mut [u16],
) -> Result<(), AuthorGround>
    requires { (reader.old.place + variable_bits < 2 ^ 64) × (d ≤ 16) × (s ≤ 32) × (size_entries ≤ length sizes.old) × (cost_entries ≤ length costs.old) }
    ensures sheet { reader.new.sheet ≡ reader.old.sheet }
    ensures place { reader.new.place ≤ reader.old.place + variable_bits }
    ensures lengths { IfOk result (λ _. map length (rows (take d sizes.new) costs.new) ≡ take d sizes.new) }
    ensures read { (c : ℕ) → rest_of reader.old.sheet.now c (rows (take d sizes.new) costs.new) (take s (drop d sizes.new)) reader.new.place result
        ≡ read_body (edition_of weighed) reader.old.sheet.now d s c reader.old.place }
{
    decisions(reader, weighed, &mut sizes[..d], costs)?;
    states(reader, &mut sizes[d..d + s])
}
