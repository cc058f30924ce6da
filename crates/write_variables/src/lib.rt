// The variables of a plant sheet, written: from the tables of sizes and costs to the sheet's bits. Each function answers with
// the place after what it put; `Puts` says so, and that every other bit stays.
#![tactic(auto)]

ghost use Rattle.std.specs.Prelude.{◌+◌, ◌*◌, ◌≤◌, ◌<◌, ◌^◌, ◌++◌, length, take, drop};
ghost use Rattle.model.specs.Lists.{All, in_turn};
ghost use Rattle.model.specs.Sheet.{edition1};
ghost use Rattle.model.specs.Tables.{total, cost_rows, decision_written, state_written};
ghost use Rattle.theory.specs.Digits.{Below};
ghost use Rattle.theory.specs.Plant.{Sized};
ghost use Rattle.theory.specs.Puts.{Puts, bits_of};

use readings::{COST_BITS, SIZE_BITS};

// Puts one decision variable: its domain size less 1, then its costs.
fn row(sheet: &mut [u8], place: usize, costs: &[u16]) -> usize
    requires { Sized (length costs.now) × (place + length (decision_written edition1 costs.now) ≤ 8 * length sheet.old) × (8 * length sheet.old < 2 ^ 64) }
    ensures { Puts place (decision_written edition1 costs.now) (bits_of sheet.old) result (bits_of sheet.new) }
{
    let mut at = bits::put(sheet, place, SIZE_BITS, costs.len() as u32 - 1);
    for &cost in costs {
        at = bits::put(sheet, at, COST_BITS, u32::from(cost));
    }
    at
}

// Puts the decision variables.
fn decisions(sheet: &mut [u8], place: usize, sizes: &[u8], costs: &[u16]) -> usize
    requires { All Sized sizes.now × (total sizes.now ≤ length costs.now) × (place + length (in_turn (decision_written edition1) (cost_rows sizes.now costs.now)) ≤ 8 * length sheet.old) × (8 * length sheet.old < 2 ^ 64) }
    ensures { Puts place (in_turn (decision_written edition1) (cost_rows sizes.now costs.now)) (bits_of sheet.old) result (bits_of sheet.new) }
{
    let mut at = place;
    let mut left = costs;
    for &size in sizes {
        let (next, others) = left.split_at(usize::from(size));
        at = row(sheet, at, next);
        left = others;
    }
    at
}

// Puts the state variables: the domain size of each, less 1.
fn states(sheet: &mut [u8], place: usize, sizes: &[u8]) -> usize
    requires { All Sized sizes.now × (place + length (in_turn state_written sizes.now) ≤ 8 * length sheet.old) × (8 * length sheet.old < 2 ^ 64) }
    ensures { Puts place (in_turn state_written sizes.now) (bits_of sheet.old) result (bits_of sheet.new) }
{
    let mut at = place;
    for &size in sizes {
        at = bits::put(sheet, at, SIZE_BITS, u32::from(size) - 1);
    }
    at
}

// Puts the variables: the first d are decision variables. Callers learn too that each cost is a number of sixteen bits.
pub fn variables(sheet: &mut [u8], place: usize, d: usize, sizes: &[u8], costs: &[u16]) -> usize
    requires { All Sized sizes.now × (d ≤ length sizes.now) × (total (take d sizes.now) ≤ length costs.now)
        × (place + length (in_turn (decision_written edition1) (cost_rows (take d sizes.now) costs.now) ++ in_turn state_written (drop d sizes.now)) ≤ 8 * length sheet.old) × (8 * length sheet.old < 2 ^ 64) }
    ensures { Puts place (in_turn (decision_written edition1) (cost_rows (take d sizes.now) costs.now) ++ in_turn state_written (drop d sizes.now)) (bits_of sheet.old) result (bits_of sheet.new) × Below (2 ^ 16) costs.now }
{
    let (decided, stated) = sizes.split_at(d);
    let after = decisions(sheet, place, decided, costs);
    states(sheet, after, stated)
}
