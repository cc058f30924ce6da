// Steps 4 to 7 of a listing with a node removed, over decoded tables in lent buffers: its children are put into the queue,
// by the first stored conflict that it does not resolve or by its lowest unassigned variable, or it is judged where it is
// full.
#![tactic(auto)]

ghost use Rattle.std.specs.Prelude.{◌≡◌, false, List, ℕ, ◌*◌, ◌/◌, ◌≤◌, length};
ghost use Rattle.std.proofs.Math.Option.{none, some};
ghost use Rattle.model.specs.Assignment.{Assignment, is_full};
ghost use Rattle.model.specs.Listing.{first_unresolved, expand};
ghost use Rattle.theory.specs.Words.{Words};
ghost use Rattle.children.specs.Children.{Choosable, Tables};
ghost use Rattle.judge.specs.Standing.{Question, order_in, Removed, NextIs};
ghost use Rattle.plan.specs.Plans.{plan_words};
ghost use Rattle.expand.specs.Expands.{PutNext, Expands};

use children::{Choices, Full, Node};
use clauses::tables::Decoded;
use judge::{Ending, Finished, Next, Progress, judge};
use plan::Plan;
use std::ops::ControlFlow;
use words::Pair;

// What a listing is asked: a plant with its costs or weights and the word that hands in each decision variable's best value,
// how many states are wanted, and the limit of the trials.
#[derive(Clone, Copy)]
pub struct Query<'a> {
    pub plant: Decoded<'a>,
    pub prices: &'a [u16],
    pub weighed: bool,
    pub preferred: u64,
    pub wanted: u32,
    pub limit: u32,
}

// Step 6 has been done: the children are in the queue, or it has too few entries for them.
fn put(g: Progress, r: Result<usize, Full>) -> Next
    ensures { PutNext g r result }
{
    match r {
        Err(Full) => ControlFlow::Break(Finished {
            ending: Ending::Full,
            progress: g,
        }),
        Ok(n) => ControlFlow::Continue(Progress { queued: n, ..g }),
    }
}

// Steps 4 and 6: puts the node's children that resolve the conflict with these words.
fn resolve(
    choices: &Choices,
    node: Node,
    conflict: Pair,
    queue: &mut [u64],
    store: &[u64],
    g: Progress,
) -> Next
    requires { Choosable choices.now × (2 * g.stored ≤ length store.now) }
    ensures { (q : Question choices.now.weighed) (limit : ℕ) (codes shown : List ℕ) (t : Removed q limit queue.old store.now codes shown g node)
        → Tables q.plant choices.now
        → (c : Assignment) → first_unresolved t.state.store t.parent ≡ some c → Words c conflict.mask conflict.values
        → NextIs q queue.new store.now codes shown result
        (expand q.plant (order_in q) q.wanted (length queue.old / 2) (length store.now / 2) limit t.state t.rest t.parent) }
{
    let n = g.queued;
    let m = g.stored;
    put(
        g,
        children::resolve(choices, node, conflict, queue, n, store, m),
    )
}

// Steps 5 and 6: puts the children of a node that resolves every stored conflict and is not full.
fn branch(choices: &Choices, node: Node, queue: &mut [u64], store: &[u64], g: Progress) -> Next
    requires { Choosable choices.now × (2 * g.stored ≤ length store.now) }
    ensures { (q : Question choices.now.weighed) (limit : ℕ) (codes shown : List ℕ) (t : Removed q limit queue.old store.now codes shown g node)
        → Tables q.plant choices.now
        → first_unresolved t.state.store t.parent ≡ none → is_full t.parent ≡ false
        → NextIs q queue.new store.now codes shown result
        (expand q.plant (order_in q) q.wanted (length queue.old / 2) (length store.now / 2) limit t.state t.rest t.parent) }
{
    let n = g.queued;
    let m = g.stored;
    put(g, children::branch(choices, node, queue, n, store, m))
}

// Steps 4 to 7 with the node removed.
pub fn expand(
    query: &Query,
    plan: &mut Plan,
    codes: &mut [u64],
    values: &mut [u8],
    queue: &mut [u64],
    store: &mut [u64],
    g: Progress,
    node: Node,
) -> Next
    requires { Expands query.now plan.old codes.old values.old queue.old store.old g node }
    ensures answer { (t : Expands query.now plan.old codes.old values.old queue.old store.old g node)
        → NextIs t.question queue.new store.new codes.new values.new result
        (expand t.question.plant (order_in t.question) t.question.wanted (length queue.old / 2) (length store.old / 2) query.now.limit t.taken.state t.taken.rest t.taken.parent) }
    ensures long { length plan.new ≡ plan_words }
{
    let choices = Choices {
        decisions: query.plant.decisions,
        sizes: query.plant.sizes,
        prices: query.prices,
        weighed: query.weighed,
        preferred: query.preferred,
    };
    match store::first_unresolved(store, g.stored, children::widened(node)) {
        Some(found) => resolve(&choices, node, found, queue, store, g),
        None => {
            if words::is_full(node.mask, query.plant.decisions) {
                return judge(
                    &query.plant,
                    plan,
                    query.weighed,
                    codes,
                    values,
                    queue,
                    store,
                    g,
                    node,
                    query.limit,
                );
            }
            branch(&choices, node, queue, store, g)
        }
    }
}
