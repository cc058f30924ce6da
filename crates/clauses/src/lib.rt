// What is made of the clauses of a plant, and asked of them, before any search. `evaluation` asks the literals themselves
// whether a clause is false. `sets` has sets of clauses as bits of words, 64 clauses to a word; `tables` makes those of a
// plant once: which clauses a value satisfies, and which mention a variable.
#![tactic(auto)]

pub mod evaluation;
pub mod sets;
pub mod tables;
