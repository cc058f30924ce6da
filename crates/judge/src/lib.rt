// Step 7 of a listing, over decoded tables in lent buffers: `judge` tests a node that is full and lists its state, or has
// `learn` reduce and store its conflict. What all steps of a run share stands here too: the counts and the numbers of
// entries go about in a `Progress`; `Standing` says for which state of the model the words stand, `NextIs` that a step
// makes of the words what the model makes of the state.
#![tactic(auto)]

ghost use Rattle.std.specs.Prelude.{◌≡◌, true, List, ℕ, ◌+◌, ◌*◌, ◌/◌, ◌≤◌, ◌<◌, length};
ghost use Rattle.model.specs.Assignment.{is_full};
ghost use Rattle.model.specs.Calls.{state_bytes};
ghost use Rattle.model.specs.Listing.{most_tested, learn, judge};
ghost use Rattle.model.specs.Text.{ending_word};
ghost use Rattle.conflict.specs.Given.{ReadyFor};
ghost use Rattle.plan.specs.Plans.{plan_words};
ghost use Rattle.judge.specs.Standing.{Question, TabledBy, order_in, Removed, CanCount, counted, ListedOne, ending_of, NextIs};

use children::Node;
use clauses::tables::Decoded;
use conflict::reduce::reduce;
use conflict::tests::test_shown;
use limits::{MOST_TESTED, STATE_BYTES};
use plan::Plan;
use std::ops::ControlFlow;
use text::put_bytes;
use trials::Answer;

// The counts of a run: the states listed, the tests, the conflicts learned and those that were not kept, and the trials.
#[derive(Clone, Copy, Debug, Default, PartialEq, Eq)]
pub struct Counts {
    pub listed: u32,
    pub tested: u32,
    pub learned: u32,
    pub unkept: u32,
    pub trials: u32,
}

impl Counts {
    // A test more, with so many trials made.
    fn counted(self, trials: u32) -> Counts
        requires { self.tested < most_tested }
        ensures { result ≡ counted self trials }
    {
        Counts {
            tested: self.tested + 1,
            trials,
            ..self
        }
    }
}

// How far a run is: the entries of queue and store, and the counts.
#[derive(Clone, Copy, Debug, PartialEq, Eq)]
pub struct Progress {
    pub queued: usize,
    pub stored: usize,
    pub counts: Counts,
}

// The four endings.
#[derive(Clone, Copy, Debug, PartialEq, Eq)]
pub enum Ending {
    Enough,
    All,
    Full,
    Spent,
}

impl Ending {
    // The word that tells it, with the space behind it.
    pub fn word(self) -> &'static [u8]
        ensures { result.now ≡ ending_word (ending_of self) }
    {
        match self {
            Ending::Enough => b"enough ",
            Ending::All => b"all ",
            Ending::Full => b"full ",
            Ending::Spent => b"spent ",
        }
    }
}

// A run that has ended.
#[derive(Clone, Copy, Debug, PartialEq, Eq)]
pub struct Finished {
    pub ending: Ending,
    pub progress: Progress,
}

// After a step: the run goes on, or it has ended.
pub type Next = ControlFlow<Finished, Progress>;

// Step 7 after a test that was inconsistent with so many trials: the node is unkept, or its conflict is learned, and the stored ones that contain it and the queue nodes that manifest it are removed.
fn learn(
    plant: &Decoded,
    plan: &mut Plan,
    weighed: bool,
    queue: &mut [u64],
    store: &mut [u64],
    g: Progress,
    node: Node,
    trials: u32,
    limit: u32,
) -> Next
    requires { ReadyFor plant.now plan.old × CanCount g.counts × (2 * g.queued ≤ length queue.old) }
    ensures answer { (q : Question weighed) (prices codes values : List ℕ) → TabledBy q.plant plant.now prices
        → (t : Removed q limit queue.old store.old codes values g node)
        → NextIs q queue.new store.new codes values result
        (learn q.plant (order_in q) q.wanted (length queue.old / 2) (length store.old / 2) limit t.state t.rest t.parent trials) }
    ensures long { length plan.new ≡ plan_words }
{
    if store.len() / 2 <= g.stored {
        return ControlFlow::Continue(Progress {
            counts: Counts {
                unkept: g.counts.unkept + 1,
                ..g.counts.counted(trials)
            },
            ..g
        });
    }
    let held = children::values(node);
    match reduce(plant, plan, node.mask, held, trials, limit) {
        Err(spent) => ControlFlow::Break(Finished {
            ending: Ending::Spent,
            progress: Progress {
                counts: g.counts.counted(spent.trials),
                ..g
            },
        }),
        Ok(found) => {
            let stored = subsumption::learn(store, g.stored, found.mask, found.values);
            let left = queue::sieve(queue, g.queued, weighed, found.mask, found.values);
            ControlFlow::Continue(Progress {
                queued: left,
                stored,
                counts: Counts {
                    learned: g.counts.learned + 1,
                    ..g.counts.counted(found.trials)
                },
            })
        }
    }
}

// Step 7 after a test that was consistent with so many trials: the node's state is listed, with the values that the test shows.
fn list(
    codes: &mut [u64],
    values: &mut [u8],
    so_far: Counts,
    node: Node,
    trials: u32,
    shown: &[u8; STATE_BYTES],
) -> Counts
    requires { CanCount so_far × (so_far.listed ≤ so_far.tested) × (so_far.listed < length codes.old) × (state_bytes * so_far.listed + state_bytes ≤ length values.old) }
    ensures { ListedOne so_far node trials shown.now codes.old values.old codes.new values.new result }
{
    let at = so_far.listed as usize;
    codes[at] = node.code;
    put_bytes(values, STATE_BYTES * at, shown);
    Counts {
        listed: so_far.listed + 1,
        ..so_far.counted(trials)
    }
}

// Step 7: tests the node, which is full, unless the tests are at their greatest count, and lists its state or learns.
pub fn judge(
    plant: &Decoded,
    plan: &mut Plan,
    weighed: bool,
    codes: &mut [u64],
    values: &mut [u8],
    queue: &mut [u64],
    store: &mut [u64],
    g: Progress,
    node: Node,
    limit: u32,
) -> Next
    requires { ReadyFor plant.now plan.old × ((q : Question weighed) × Removed q limit queue.old store.old codes.old values.old g node) }
    ensures answer { (q : Question weighed) (prices : List ℕ) → TabledBy q.plant plant.now prices
        → (t : Removed q limit queue.old store.old codes.old values.old g node) → is_full t.parent ≡ true
        → NextIs q queue.new store.new codes.new values.new result
        (judge q.plant (order_in q) q.wanted (length queue.old / 2) (length store.old / 2) limit t.state t.rest t.parent) }
    ensures long { length plan.new ≡ plan_words }
{
    if g.counts.tested == MOST_TESTED {
        return ControlFlow::Break(Finished {
            ending: Ending::Spent,
            progress: g,
        });
    }
    let held = children::values(node);
    let test = test_shown(plant, plan, node.mask, held, g.counts.trials, limit);
    let answer = test.answer;
    let shown = test.values;
    match answer {
        Answer::Spent(t) => ControlFlow::Break(Finished {
            ending: Ending::Spent,
            progress: Progress {
                counts: Counts {
                    trials: t,
                    ..g.counts
                },
                ..g
            },
        }),
        Answer::Inconsistent(t) => learn(plant, plan, weighed, queue, store, g, node, t, limit),
        Answer::Consistent(t) => ControlFlow::Continue(Progress {
            counts: list(codes, values, g.counts, node, t, &shown),
            ..g
        }),
    }
}
