// Theorems about the definitions of crate `model`: the test is right, a reduced conflict is minimal, a run's list begins the
// whole set. Statements are in `specs/`, proofs in `proofs/`. There is no code here.
#![tactic(auto)]
