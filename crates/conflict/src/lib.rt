// The test of two words' assignment and the reduction of a conflict, over decoded tables. `tests` turns two words into a
// byte for each variable and has the consistency test run on them. `reduce` tests the rest of a conflict without each of
// its members in turn.
#![tactic(auto)]

pub mod reduce;
pub mod tests;
