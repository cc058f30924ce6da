// Step 1: the offered entries are checked in order, and those that survive move to the front of the store. One that is
// found inconsistent is dropped if it contains one found before, and otherwise pushes out those that contain it.
#![tactic(auto)]

ghost use Rattle.std.specs.Prelude.{◌≡◌, List, [], ℕ, ◌+◌, ◌*◌, ◌≤◌, ◌<◌, length};
ghost use Rattle.model.specs.Assignment.{Assignment};
ghost use Rattle.model.specs.Listing.{survivors_of, check_offers};
ghost use Rattle.model.specs.Calls.{offers_of};
ghost use Rattle.theory.specs.Store.{Long};
ghost use Rattle.store.specs.Store.{Keeps};
ghost use Rattle.conflict.specs.Given.{ReadyFor, ForPlantOf};
ghost use Rattle.plan.specs.Plans.{plan_words};
ghost use Rattle.offers.specs.Offers.{CheckedOne, OneMore, OfferedAs};

use clauses::tables::Decoded;
use conflict::tests::tested;
use plan::Plan;
use trials::Answer;

// How many entries survive, with the trials made.
#[derive(Clone, Copy, Debug, PartialEq, Eq)]
pub struct Offered {
    pub survivors: usize,
    pub trials: u32,
}

// Checks the entry at place i behind the survivors so far: it is admitted among them if it is well formed and a test finds
// it inconsistent. `Err` if the limit strikes.
fn check(
    plant: &Decoded,
    plan: &mut Plan,
    store: &mut [u64],
    i: usize,
    so_far: Offered,
    limit: u32,
) -> Result<Offered, Offered>
    requires { ReadyFor plant.now plan.old × (2 * i + 2 ≤ length store.old) × (so_far.survivors ≤ i) }
    ensures few { OneMore so_far.survivors result }
    ensures one { ForPlantOf plant.now (λ p. (held : ℕ) (found : List Assignment) → i < held → 2 * held ≤ length store.old
        → Long (length p.costs) found → Keeps (length p.costs) store.old so_far.survivors (survivors_of found)
        → CheckedOne p limit held i found so_far.trials store.old store.new result) }
    ensures long { length plan.new ≡ plan_words }
{
    let e = store::entry_at(store, i);
    if !words::well_formed(e.mask, e.values, plant.sizes, plant.decisions) {
        return Ok(so_far);
    }
    let m = so_far.survivors;
    match tested(plant, plan, e.mask, e.values, so_far.trials, limit) {
        Answer::Consistent(trials) => Ok(Offered {
            survivors: m,
            trials,
        }),
        Answer::Spent(trials) => Err(Offered {
            survivors: m,
            trials,
        }),
        Answer::Inconsistent(trials) => {
            let survivors = subsumption::admit(store, m, e.mask, e.values);
            Ok(Offered { survivors, trials })
        }
    }
}

// Checks the first `held` entries. `Err` if the limit strikes before the last.
pub fn check_all(
    plant: &Decoded,
    plan: &mut Plan,
    store: &mut [u64],
    held: usize,
    limit: u32,
) -> Result<Offered, Offered>
    requires { ReadyFor plant.now plan.old × (2 * held ≤ length store.old) }
    ensures answer { ForPlantOf plant.now (λ p. OfferedAs p store.new result (check_offers p limit [] (offers_of held store.old) 0)) }
    ensures long { length plan.new ≡ plan_words }
{
    let mut offered = Offered {
        survivors: 0,
        trials: 0,
    };
    for i in 0..held {
        offered = check(plant, plan, store, i, offered, limit)?;
    }
    Ok(offered)
}
