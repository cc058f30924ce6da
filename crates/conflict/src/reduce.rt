// The reduction of a conflict that is given by its two words.
ghost use Rattle.std.specs.Prelude.{◌≡◌, ◌<◌, length};
ghost use Rattle.model.specs.Conflict.{reduce};
ghost use Rattle.plan.specs.Plans.{plan_words};
ghost use Rattle.conflict.specs.Given.{ReadyFor, ForWordsOf};
ghost use Rattle.conflict.specs.Reduced.{Turned, Reduces};

use super::tests::tested;
use clauses::tables::Decoded;
use plan::Plan;
use trials::Answer;

// What a reduction comes to: the conflict's two words, and the trials made so far.
#[derive(Clone, Copy)]
pub struct Reduction {
    pub mask: u64,
    pub values: u64,
    pub trials: u32,
}

// The limit struck: a reduction is given up after so many trials.
#[derive(Clone, Copy)]
pub struct Spent {
    pub trials: u32,
}

// One turn: tests the rest without the variable v, if it is a member, and leaves v out where the rest is inconsistent.
fn without(
    plant: &Decoded,
    plan: &mut Plan,
    now: Reduction,
    v: usize,
    limit: u32,
) -> Result<Reduction, Spent>
    requires { ReadyFor plant.now plan.old × (v < plant.now.decisions) }
    ensures answer { ForWordsOf plant.now now.mask now.values (λ p c. Turned p limit v c now.trials result) }
    ensures long { length plan.new ≡ plan_words }
{
    if !words::is_assigned(now.mask, v) {
        return Ok(now);
    }
    let rest = words::remove(now.mask, now.values, v);
    match tested(plant, plan, rest.mask, rest.values, now.trials, limit) {
        Answer::Consistent(trials) => Ok(Reduction { trials, ..now }),
        Answer::Inconsistent(trials) => Ok(Reduction {
            mask: rest.mask,
            values: rest.values,
            trials,
        }),
        Answer::Spent(trials) => Err(Spent { trials }),
    }
}

// Reduces the conflict that the two words hold, which is not tested again, with `used` trials made before.
pub fn reduce(
    plant: &Decoded,
    plan: &mut Plan,
    mask: u64,
    values: u64,
    used: u32,
    limit: u32,
) -> Result<Reduction, Spent>
    requires { ReadyFor plant.now plan.old }
    ensures answer { ForWordsOf plant.now mask values (λ p a. Reduces p (reduce p limit a used) result) }
    ensures long { length plan.new ≡ plan_words }
{
    let mut now = Reduction {
        mask,
        values,
        trials: used,
    };
    for v in 0..plant.decisions {
        now = without(plant, plan, now, v, limit)?;
    }
    Ok(now)
}
