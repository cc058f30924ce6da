// How a test ends, with its trials.
// Both searches (`pair_search` for at most 128 clauses, `row_search` for more) go by the definitions and laws that stand
// here: what their sets of clauses are, where they stand at a variable, and what a turn of the loop over its values means.
#![tactic(auto)]

ghost use Rattle.std.specs.Prelude.{◌≡◌, ◌+◌, ◌-◌, ◌<◌, ◌≤◌};
ghost use Rattle.trials.specs.Answers.{trials_below, told, trials_in};

// The trials of a test are fewer.
pub const TRIALS_BELOW: u64 = 4294967296;

// How a test ends, with the trials made so far.
#[derive(Clone, Copy)]
pub enum Answer {
    Consistent(u32),
    Inconsistent(u32),
    Spent(u32),
}

// The trials that may still be made.
pub fn trials_left(used: u32, limit: u32) -> u32
    ensures { result ≡ limit - used }
{
    limit.saturating_sub(used)
}

// The answer with the trials made in place of those left.
pub fn with_trials_made(a: Answer, used: u32, left: u32) -> Answer
    requires { (trials_in a ≤ left) × (used + left < trials_below) }
    ensures { result ≡ told used left a }
{
    match a {
        Answer::Consistent(t) => Answer::Consistent(used + (left - t)),
        Answer::Inconsistent(t) => Answer::Inconsistent(used + (left - t)),
        Answer::Spent(t) => Answer::Spent(used + (left - t)),
    }
}
