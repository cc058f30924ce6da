// The listing call on a sheet of edition 2 and lent buffers, whatever these are: what `listing_call` does for a sheet with
// costs, for one with weights. The products of the listed states stand where costs do, the greatest first. Both calls are
// `list_codes`; what each adds is the type of its figures, which its contract reads as numbers, and what fills them in.
#![tactic(auto)]

ghost use Rattle.std.specs.Prelude.{◌≡◌};
ghost use Rattle.model.specs.Sheet.{edition2};
ghost use Rattle.model.specs.Calls.{Buffers, listing_with, weights_call};
ghost use Rattle.listing.specs.Listing.{buffers, answer_of, CalledAs};
ghost use Rattle.listing_call.specs.Calls.{shown};
ghost use Rattle.weights_call.specs.Calls.{Promises};

use figures::fill_products;
use listing::Ran;
use listing_call::list_codes;
use refusal::Refusal;
use sheet::COST_ENTRIES;

// The listing call; `short`: the export has fewer than six result words.
pub fn list_weights_with(
    sheet: &[u8],
    k: u32,
    codes: &mut [u64],
    products: &mut [u64],
    values: &mut [u8],
    queue: &mut [u64],
    store: &mut [u64],
    held: usize,
    limit: u32,
    short: bool,
) -> Result<Ran, Refusal>
    ensures { CalledAs result (buffers codes.new products.new values.new queue.new store.new)
        (listing_with edition2 sheet.now k (buffers codes.old products.old values.old queue.old store.old) held limit short) }
{
    let mut prices = [0u16; COST_ENTRIES];
    let listed = list_codes(
        sheet,
        true,
        k,
        codes,
        products.len(),
        values,
        queue,
        store,
        held,
        limit,
        short,
        &mut prices,
    )?;
    let ran = listed.ran;
    fill_products(
        products,
        codes,
        ran.counts.listed as usize,
        &prices,
        listed.decisions,
    );
    Ok(ran)
}

// The listing call: the leading states of the sheet's plant go to codes, products and values.
pub fn list_weights(
    sheet: &[u8],
    k: u32,
    codes: &mut [u64],
    products: &mut [u64],
    values: &mut [u8],
    queue: &mut [u64],
    store: &mut [u64],
    held: usize,
    limit: u32,
) -> Result<Ran, Refusal>
    ensures { (let before : Buffers = buffers codes.old products.old values.old queue.old store.old in
        let after : Buffers = buffers codes.new products.new values.new queue.new store.new in
        (shown (weights_call sheet.now k before held limit) ≡ (answer_of result, after)) × Promises sheet.now k before held limit result after) }
{
    list_weights_with(
        sheet, k, codes, products, values, queue, store, held, limit, false,
    )
}
