// The listing call on a sheet and lent buffers, whatever these are: the host's refusals, the sheet's, or the listing of its
// plant.
#![tactic(auto)]

ghost use Rattle.std.specs.Prelude.{◌≡◌, length};
ghost use Rattle.model.specs.Sheet.{edition1};
ghost use Rattle.model.specs.Calls.{Buffers, first_given, host_grounds, listing_with, listing_call};
ghost use Rattle.readings.specs.Lengths.{cost_entries};
ghost use Rattle.refusal.specs.Refusal.{host_found};
ghost use Rattle.listing.specs.Listing.{buffers, answer_of, CalledAs};
ghost use Rattle.listing_call.specs.Calls.{shown, Promises};
ghost use Rattle.listing_call.specs.Listed.{ListedOn};

use figures::fill_costs;
use limits::{MOST_LISTED, MOST_WORDS, STATE_BYTES};
use listing::{Ran, list_tables};
use refusal::{HostGround, Refusal};
use sheet::{COST_ENTRIES, COUNT_ENTRIES, LITERAL_BYTES, SIZE_ENTRIES};

// The first ground on which the host's numbers are refused, if there is one; `short`: the export has fewer than six result words.
fn fit(
    k: u32,
    codes: usize,
    costs: usize,
    values: usize,
    queue: usize,
    store: usize,
    held: usize,
    short: bool,
) -> Result<(), HostGround>
    ensures { (b : Buffers) → length b.codes ≡ codes → length b.costs ≡ costs → length b.values ≡ values → length b.queue ≡ queue → length b.store ≡ store → host_found result ≡ first_given (host_grounds k b held short) }
{
    if !((1 <= k) & (k <= MOST_LISTED)) {
        return Err(HostGround::BadK);
    }
    let wanted = k as usize;
    let short_list = (codes < wanted) | (costs < wanted) | short;
    let short_values = values < STATE_BYTES * wanted;
    let wrong_queue = (queue % 2 == 1) | (queue < 2) | (queue > MOST_WORDS);
    if short_list {
        return Err(HostGround::BadOutput);
    }
    if short_values {
        return Err(HostGround::BadValuesRoom);
    }
    if wrong_queue {
        return Err(HostGround::BadQueue);
    }
    if (store % 2 == 1) | (store > MOST_WORDS) | (store / 2 < held) {
        return Err(HostGround::BadStore);
    }
    Ok(())
}

// What the calls of both editions share: the number of decision variables and the run, with its figures yet to be filled in.
#[derive(Clone, Copy)]
pub struct Listed {
    pub decisions: usize,
    pub ran: Ran,
}

// Lists the codes of the sheet's leading states, for either edition: the host's refusals, with `figures` places for figures
// and `short` as above, the sheet's, or the run of its plant, whose costs or weights are left in the table of prices.
// By the law that is named a right exit in front of `fit` is proved too, so that `author_blamed` is refused for whom it blames.
#[tactic(auto, using(crate::proofs::Answering::none_wanted))]
pub fn list_codes(
    sheet: &[u8],
    weighed: bool,
    k: u32,
    codes: &mut [u64],
    figures: usize,
    values: &mut [u8],
    queue: &mut [u64],
    store: &mut [u64],
    held: usize,
    limit: u32,
    short: bool,
    prices: &mut [u16],
) -> Result<Listed, Refusal>
    requires { length prices.old ≡ cost_entries }
    ensures { ListedOn weighed sheet.now k held limit short figures codes.old values.old queue.old store.old
        codes.new values.new queue.new store.new prices.new result }
{
    fit(
        k,
        codes.len(),
        figures,
        values.len(),
        queue.len(),
        store.len(),
        held,
        short,
    )?;
    let mut sizes = [0u8; SIZE_ENTRIES];
    let mut counts = [0u8; COUNT_ENTRIES];
    let mut lits = [0u8; LITERAL_BYTES];
    let numbers = sheet::read(sheet, weighed, &mut sizes, prices, &mut counts, &mut lits)?;
    let decisions = numbers.decisions;
    let variables = decisions + numbers.states;
    let ran = list_tables(
        decisions,
        &sizes[..variables],
        prices,
        &counts[..numbers.clauses],
        &lits,
        weighed,
        codes,
        values,
        queue,
        store,
        k,
        held,
        limit,
    );
    Ok(Listed { decisions, ran })
}

// The listing call, with `short` as above.
pub fn list_with(
    sheet: &[u8],
    k: u32,
    codes: &mut [u64],
    costs: &mut [u32],
    values: &mut [u8],
    queue: &mut [u64],
    store: &mut [u64],
    held: usize,
    limit: u32,
    short: bool,
) -> Result<Ran, Refusal>
    ensures { CalledAs result (buffers codes.new costs.new values.new queue.new store.new)
        (listing_with edition1 sheet.now k (buffers codes.old costs.old values.old queue.old store.old) held limit short) }
{
    let mut prices = [0u16; COST_ENTRIES];
    let listed = list_codes(
        sheet,
        false,
        k,
        codes,
        costs.len(),
        values,
        queue,
        store,
        held,
        limit,
        short,
        &mut prices,
    )?;
    let ran = listed.ran;
    fill_costs(
        costs,
        codes,
        ran.counts.listed as usize,
        &prices,
        listed.decisions,
    );
    Ok(ran)
}

// The listing call: the leading states of the sheet's plant go to codes, costs and values.
pub fn list(
    sheet: &[u8],
    k: u32,
    codes: &mut [u64],
    costs: &mut [u32],
    values: &mut [u8],
    queue: &mut [u64],
    store: &mut [u64],
    held: usize,
    limit: u32,
) -> Result<Ran, Refusal>
    ensures { (let before : Buffers = buffers codes.old costs.old values.old queue.old store.old in
        let after : Buffers = buffers codes.new costs.new values.new queue.new store.new in
        (shown (listing_call sheet.now k before held limit) ≡ (answer_of result, after)) × Promises sheet.now k before held limit result after) }
{
    list_with(
        sheet, k, codes, costs, values, queue, store, held, limit, false,
    )
}
