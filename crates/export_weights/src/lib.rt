// The listing call on a sheet of edition 2 for a C program, on numbers and lent buffers: it returns a refusal's number, or 0
// after its result words were written. `leading_c` has it for C.
#![tactic(auto)]

ghost use Rattle.std.specs.Prelude.{◌≡◌};
ghost use Rattle.model.specs.Sheet.{edition2};
ghost use Rattle.model.specs.Calls.{Buffers, weights_export};
ghost use Rattle.listing.specs.Listing.{buffers};
ghost use Rattle.export.specs.Exports.{exported, ExportKeeps};

use export::{LISTING_WORDS, tell};
use weights_call::list_weights_with;

// The listing call: the result words are ending, listed, tested, learned, unkept and trials.
pub fn leading_list_weights(
    sheet: &[u8],
    codes: &mut [u64],
    products: &mut [u64],
    values: &mut [u8],
    queue: &mut [u64],
    store: &mut [u64],
    res: &mut [u32],
    k: u32,
    held: usize,
    limit: u32,
) -> u32
    ensures { (let before : Buffers = buffers codes.old products.old values.old queue.old store.old in
        let after : Buffers = buffers codes.new products.new values.new queue.new store.new in
        (weights_export sheet.now k before held limit res.old ≡ exported result after res.new)
        × ExportKeeps edition2 sheet.now k before held limit res.old result after res.new) }
{
    let short = res.len() < LISTING_WORDS;
    let answer = list_weights_with(
        sheet, k, codes, products, values, queue, store, held, limit, short,
    );
    tell(res, answer)
}
