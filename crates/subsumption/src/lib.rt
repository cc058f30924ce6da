// A conflict comes into the store, of whose entries none contains another, and afterwards still none does. In step 1
// either may contain the other, and one pass finds which: the first entry that is related to the conflict settles it. In
// step 7 only an entry can contain the conflict. The entries that contain it give way to it, the others close up.
#![tactic(auto)]

ghost use Rattle.std.specs.Prelude.{◌≡◌, not, List, [], ◌++◌, ℕ, ◌+◌, ◌*◌, ◌≤◌, ◌<◌, length, take, drop};
ghost use Rattle.model.specs.Lists.{Pairs, keep};
ghost use Rattle.model.specs.Assignment.{Assignment};
ghost use Rattle.model.specs.Conflict.{manifests};
ghost use Rattle.model.specs.Listing.{stored};
ghost use Rattle.theory.specs.Words.{Words, Wide};
ghost use Rattle.theory.specs.Store.{Neither, admitted};
ghost use Rattle.store.specs.Store.{Keeps};

use store::{append, entry_at, first_where};
use words::{Pair, WidePair};

// Removes those of the m entries that contain the conflict, from a place on; the others close up. Answers how many are left.
fn push_out(store: &mut [u64], from: usize, m: usize, conflict: WidePair) -> usize
    requires { (from ≤ m) × (2 * m ≤ length store.old) }
    ensures few { result ≤ m }
    ensures kept { (d : ℕ) (conflicts : List Assignment) (c : Assignment) → Keeps d store.old m conflicts → Wide c conflict.mask conflict.values → length c ≡ d
        → Keeps d store.new result (take from conflicts ++ keep (λ s. not (manifests s c)) (drop from conflicts)) }
    ensures behind { drop (2 * m) store.new ≡ drop (2 * m) store.old }
{
    let mut left = from;
    for i in from..m {
        let entry = entry_at(store, i);
        store[2 * left] = entry.mask;
        store[2 * left + 1] = entry.values;
        left += usize::from(!entry.manifests(conflict));
    }
    left
}

// Step 7: those of the m entries that contain the learned conflict are removed, and it is appended. Answers how many there are.
pub fn learn(store: &mut [u64], m: usize, mask: u64, values: u64) -> usize
    requires { 2 * m + 2 ≤ length store.old }
    ensures few { result ≤ m + 1 }
    ensures kept { (d : ℕ) (conflicts : List Assignment) (c : Assignment) → Keeps d store.old m conflicts → Words c mask values → length c ≡ d
        → Keeps d store.new result (stored conflicts c) }
{
    let learned = Pair { mask, values };
    let others = push_out(store, 0, m, learned.widened());
    append(store, others, mask, values);
    others + 1
}

// Step 1: a conflict that contains one of the m entries is dropped; otherwise those that contain it are removed, and it is appended. Answers how many there are.
pub fn admit(store: &mut [u64], m: usize, mask: u64, values: u64) -> usize
    requires { 2 * m + 2 ≤ length store.old }
    ensures few { result ≤ m + 1 }
    ensures kept { (d : ℕ) (conflicts : List Assignment) (c : Assignment) → Keeps d store.old m conflicts → Pairs Neither conflicts → Words c mask values → length c ≡ d
        → Keeps d store.new result (admitted conflicts c) }
    ensures behind { drop (2 * m + 2) store.new ≡ drop (2 * m + 2) store.old }
{
    let conflict = Pair { mask, values }.widened();
    let found = first_where(store, m, |entry| conflict.related(entry));
    let Some(first) = found else {
        append(store, m, mask, values);
        return m + 1;
    };
    if conflict.manifests(entry_at(store, first)) {
        return m;
    }
    let left = push_out(store, first, m, conflict);
    append(store, left, mask, values);
    left + 1
}
