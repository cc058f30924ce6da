// The listing of the leading states of a plant over decoded tables, in lent buffers: what is made of the tables once, steps
// 1 to 7 (step 2 is its own, step 1 is in `offers`, the others in `steps`), and what is left in the buffers. It lists codes;
// the figures that stand beside them are functions of the codes, and a call fills them in when the run is over.
#![tactic(auto)]

ghost use Rattle.std.specs.Prelude.{◌≡◌, true, List, ℕ, ◌*◌, ◌/◌, ◌≤◌, length};
ghost use Rattle.model.specs.Sheet.{Plant, edition_of, decision_sizes};
ghost use Rattle.model.specs.Assignment.{Assignment};
ghost use Rattle.model.specs.Order.{order_of};
ghost use Rattle.model.specs.Listing.{unassigned, start, enough_steps, run, listing};
ghost use Rattle.model.specs.Calls.{offers_of};
ghost use Rattle.theory.specs.Plant.{Accepted};
ghost use Rattle.theory.specs.Tables.{Tabled};
ghost use Rattle.theory.specs.Value.{PreferredValues};
ghost use Rattle.judge.specs.Standing.{TabledBy};
ghost use Rattle.children.specs.Children.{NodeIs};
ghost use Rattle.steps.specs.Run.{FinishedAs};
ghost use Rattle.listing.specs.Listing.{question, Room, Lists, first, Survivors, Finishes, RanAs};

use children::Node;
use clauses::sets::{SAT_WORDS, USES_WORDS};
use clauses::tables::{Decoded, prepare};
use expand::Query;
pub use judge::Counts;
use judge::{Ending, Finished, Progress};
use offers::{Offered, check_all};
use plan::{PLAN_WORDS, Plan};
use steps::run;

// A run's ending and its counts.
#[derive(Clone, Copy, Debug, PartialEq, Eq)]
pub struct Ran {
    pub ending: Ending,
    pub counts: Counts,
}

// The empty assignment as a node.
fn root(query: &Query) -> Node
    requires { (query.now.plant.decisions ≤ 16) × (query.now.weighed ≡ true → query.now.plant.decisions ≤ 8) × (16 * query.now.plant.decisions ≤ length query.now.prices.now) }
    ensures { (p : Plant) → TabledBy p query.now.plant query.now.prices.now → Accepted (edition_of query.now.weighed) p → PreferredValues query.now.weighed p query.now.preferred
        → NodeIs query.now.weighed p (unassigned (decision_sizes p)) result }
{
    Node {
        mask: 0,
        code: query.preferred,
        figure: figures::figure(
            query.preferred,
            query.prices,
            query.plant.decisions,
            query.weighed,
        ),
    }
}

// How far a run is at its start, after step 1: nothing is listed, tested, learned or left unkept.
fn first(queued: usize, offered: Offered) -> Progress
    ensures { result ≡ first queued offered }
{
    Progress {
        queued,
        stored: offered.survivors,
        counts: Counts {
            trials: offered.trials,
            ..Counts::default()
        },
    }
}

// Steps 2 to 7 after step 1.
fn from_root(
    query: &Query,
    plan: &mut Plan,
    codes: &mut [u64],
    values: &mut [u8],
    queue: &mut [u64],
    store: &mut [u64],
    offered: Offered,
) -> Finished
    requires { (t : Lists query.now 0 plan.old codes.old values.old queue.old store.old)
        × (survivors : List Assignment) × Survivors t.plant query.now.limit survivors store.old offered }
    ensures { (t : Lists query.now 0 plan.old codes.old values.old queue.old store.old)
        (survivors : List Assignment) → Survivors t.plant query.now.limit survivors store.old offered
        → FinishedAs (question query.now.weighed t.plant query.now.wanted codes.old values.old) store.new codes.new values.new result
        (run t.plant (order_of (edition_of query.now.weighed) t.plant) query.now.wanted (length queue.old / 2) (length store.old / 2) query.now.limit (enough_steps (decision_sizes t.plant)) (start (decision_sizes t.plant) survivors offered.trials)) }
{
    let progress = first(1, offered);
    let node = root(query);
    let entry = queue::entry_of(node.mask, node.code, node.figure, query.weighed);
    queue::push(queue, 0, entry);
    run(query, plan, codes, values, queue, store, progress)
}

// Steps 1 to 7.
fn listing(
    query: &Query,
    plan: &mut Plan,
    codes: &mut [u64],
    values: &mut [u8],
    queue: &mut [u64],
    store: &mut [u64],
    held: usize,
) -> Finished
    requires { Lists query.now held plan.old codes.old values.old queue.old store.old }
    ensures { (t : Lists query.now held plan.old codes.old values.old queue.old store.old)
        → FinishedAs (question query.now.weighed t.plant query.now.wanted codes.old values.old) store.new codes.new values.new result
        (listing t.plant (order_of (edition_of query.now.weighed) t.plant) query.now.wanted (length queue.old / 2) (length store.old / 2) (offers_of held store.old) query.now.limit) }
{
    match check_all(&query.plant, plan, store, held, query.limit) {
        Err(offered) => Finished {
            ending: Ending::Spent,
            progress: first(0, offered),
        },
        Ok(offered) => from_root(query, plan, codes, values, queue, store, offered),
    }
}

// The queue is zeroed and the store behind its conflicts; the ending and the counts are what is left to tell.
fn finish(queue: &mut [u64], store: &mut [u64], f: Finished) -> Ran
    requires { 2 * f.progress.stored ≤ length store.old }
    ensures { Finishes f queue.old store.old queue.new store.new result }
{
    queue::clear(queue);
    store::clear_from(store, f.progress.stored);
    Ran {
        ending: f.ending,
        counts: f.progress.counts,
    }
}

// The listing over decoded tables, whose figures are weights or costs.
pub fn list_tables<'a>(
    d: usize,
    sizes: &'a [u8],
    prices: &'a [u16],
    counts: &'a [u8],
    lits: &'a [u8],
    weighed: bool,
    codes: &mut [u64],
    values: &mut [u8],
    queue: &mut [u64],
    store: &mut [u64],
    k: u32,
    held: usize,
    limit: u32,
) -> Ran
    requires { ((p : Plant) × Tabled p d sizes.now prices.now counts.now lits.now × Accepted (edition_of weighed) p) × Room k held codes.old values.old queue.old store.old }
    ensures { (p : Plant) → Tabled p d sizes.now prices.now counts.now lits.now → Accepted (edition_of weighed) p
        → RanAs result codes.old values.old queue.old store.old codes.new values.new queue.new store.new
        (listing p (order_of (edition_of weighed) p) k (length queue.old / 2) (length store.old / 2) (offers_of held store.old) limit) }
{
    let mut sat = [0u64; SAT_WORDS];
    let mut uses = [0u64; USES_WORDS];
    let mut plan = [0u64; PLAN_WORDS];
    prepare(counts, lits, &mut sat, &mut uses);
    let preferred = preferred::preferred(sizes, prices, d, weighed);
    let query = Query {
        plant: Decoded {
            decisions: d,
            sizes,
            counts,
            lits,
            sat: &sat,
            uses: &uses,
        },
        prices,
        weighed,
        preferred,
        wanted: k,
        limit,
    };
    let f = listing(&query, &mut plan, codes, values, queue, store, held);
    finish(queue, store, f)
}
