// The meaning of a plant sheet, the consistency test, the reduction and the listing: definitions in `specs/`, in the
// order and words of `docs/SPECIFICATION.md`, and its worked examples. There is no code here: the other crates are proved
// equal to this.
#![tactic(auto)]
