// Steps 3 to 7 over decoded tables, in lent buffers. A step removes a node from the queue and expands it; `run` goes on
// until a step ends it. Step 1 is in `offers`, step 2, the start, and the call on a sheet are in `listing`.
#![tactic(auto)]

ghost use Rattle.std.specs.Prelude.{◌≡◌, ℕ, ◌/◌, ◌<◌, length};
ghost use Rattle.model.specs.Sheet.{decision_sizes};
ghost use Rattle.model.specs.Listing.{step, run};
ghost use Rattle.theory.specs.Nodes.{weights};
ghost use Rattle.judge.specs.Standing.{order_in, NextIs};
ghost use Rattle.plan.specs.Plans.{plan_words};
ghost use Rattle.steps.specs.Run.{Steps, FinishedAs};

use expand::{Query, expand};
use judge::{Ending, Finished, Next, Progress};
use plan::Plan;
use std::ops::ControlFlow;

// Step 3, which looks at the queue first, and with the node whose best state comes first the steps 4 to 7.
fn step(
    query: &Query,
    plan: &mut Plan,
    codes: &mut [u64],
    values: &mut [u8],
    queue: &mut [u64],
    store: &mut [u64],
    g: Progress,
) -> Next
    requires { Steps query.now plan.old codes.old values.old queue.old store.old g }
    ensures answer { (t : Steps query.now plan.old codes.old values.old queue.old store.old g)
        → NextIs t.question queue.new store.new codes.new values.new result
        (step t.question.plant (order_in t.question) query.now.wanted (length queue.old / 2) (length store.old / 2) query.now.limit t.state) }
    ensures long { length plan.new ≡ plan_words }
{
    if g.queued == 0 {
        return ControlFlow::Break(Finished {
            ending: Ending::All,
            progress: g,
        });
    }
    if query.wanted <= g.counts.listed {
        return ControlFlow::Break(Finished {
            ending: Ending::Enough,
            progress: g,
        });
    }
    let entry = queue::pop(queue, g.queued);
    let left = Progress {
        queued: g.queued - 1,
        ..g
    };
    let node = children::from_entry(entry, query.weighed);
    expand(query, plan, codes, values, queue, store, left, node)
}

// Steps 3 to 7 until one of them ends the run.
pub fn run(
    query: &Query,
    plan: &mut Plan,
    codes: &mut [u64],
    values: &mut [u8],
    queue: &mut [u64],
    store: &mut [u64],
    start: Progress,
) -> Finished
    requires { Steps query.now plan.old codes.old values.old queue.old store.old start }
    ensures { (t : Steps query.now plan.old codes.old values.old queue.old store.old start)
        (fuel : ℕ) → weights (decision_sizes t.question.plant) t.state.queue < fuel
        → FinishedAs t.question store.new codes.new values.new result
        (run t.question.plant (order_in t.question) query.now.wanted (length queue.old / 2) (length store.old / 2) query.now.limit fuel t.state) }
{
    let mut g = start;
    loop {
        match step(query, plan, codes, values, queue, store, g) {
            ControlFlow::Continue(more) => g = more,
            ControlFlow::Break(finished) => return finished,
        }
    }
}
