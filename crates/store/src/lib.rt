// The conflict store of a listing: conflicts in a slice that the caller lends, two words an entry, the mask first. The
// caller counts the entries, m. Here the first m are scanned for a node, an entry is appended or read, and what stands
// behind the entries is zeroed. While a run lasts the masks are widened, as a scan compares them; nobody sees the words
// until it ends, and then they are narrowed again. `Keeps` says that the first m entries are such words of a list of
// conflicts over d variables; for every such list each answer is an equation with the model.
#![tactic(auto)]

ghost use Rattle.std.specs.Prelude.{◌≡◌, false, List, [], ◌∷◌, ◌++◌, ℕ, ◌+◌, ◌*◌, ◌≤◌, ◌<◌, length, get_or, drop, replicate};
ghost use Rattle.model.specs.Lists.{filled};
ghost use Rattle.model.specs.Assignment.{Assignment};
ghost use Rattle.model.specs.Conflict.{manifests};
ghost use Rattle.model.specs.Listing.{manifests_any, first_unresolved};
ghost use Rattle.model.specs.Calls.{entry_words};
ghost use Rattle.theory.specs.Words.{Words, Wide};
ghost use Rattle.store.specs.Store.{Keeps, Tells, pair_at, FirstOf};

use words::{Pair, WidePair};

// The entries that are tested between two branches of a scan.
pub const BLOCK: usize = 8;

// The entry at place i.
pub fn entry_at(store: &[u64], i: usize) -> WidePair
    requires { 2 * i + 2 ≤ length store.now }
    ensures { (result.mask ≡ get_or store.now (2 * i) 0) × (result.values ≡ get_or store.now (2 * i + 1) 0) }
{
    WidePair {
        mask: store[2 * i],
        values: store[2 * i + 1],
    }
}

// Whether one of the four entries from place i on passes the test.
fn one_of_four<F: Fn(WidePair) -> bool>(store: &[u64], i: usize, passes: &F) -> bool
    requires inside { 2 * i + 8 ≤ length store.now }
    requires callable { F.IsAlwaysCallable passes.now }
    ensures { result ≡ false → (k : ℕ) → k < 4 → F.post passes.now (pair_at store.now (i + k)) false }
{
    passes(entry_at(store, i))
        | passes(entry_at(store, i + 1))
        | passes(entry_at(store, i + 2))
        | passes(entry_at(store, i + 3))
}

// A place before which no entry passes the test: that of the first eight with one that does, or of the last few.
fn blocks_without<F: Fn(WidePair) -> bool>(store: &[u64], m: usize, passes: &F) -> usize
    requires inside { 2 * m ≤ length store.now }
    requires callable { F.IsAlwaysCallable passes.now }
    ensures few { result ≤ m }
    ensures none { (i : ℕ) → i < result → F.post passes.now (pair_at store.now i) false }
{
    for block in 0..m / BLOCK {
        let at = BLOCK * block;
        if one_of_four(store, at, passes) | one_of_four(store, at + 4, passes) {
            return at;
        }
    }
    m / BLOCK * BLOCK
}

// The place of the first of the m entries from a place on that passes the test.
fn first_from<F: Fn(WidePair) -> bool>(
    store: &[u64],
    from: usize,
    m: usize,
    passes: &F,
) -> Option<usize>
    requires inside { 2 * m ≤ length store.now }
    requires callable { F.IsAlwaysCallable passes.now }
    ensures { ((i : ℕ) → i < from → F.post passes.now (pair_at store.now i) false) → FirstOf m (λ i r. F.post passes.now (pair_at store.now i) r) result }
{
    for i in from..m {
        if passes(entry_at(store, i)) {
            return Some(i);
        }
    }
    None
}

// The place of the first of the m entries that passes the test.
pub fn first_where<F: Fn(WidePair) -> bool>(store: &[u64], m: usize, passes: F) -> Option<usize>
    requires inside { 2 * m ≤ length store.now }
    requires callable { F.IsAlwaysCallable passes }
    ensures { FirstOf m (λ i r. F.post passes (pair_at store.now i) r) result }
{
    first_from(store, blocks_without(store, m, &passes), m, &passes)
}

// Whether a node contains one of the m conflicts.
pub fn manifests_any(store: &[u64], m: usize, node: WidePair) -> bool
    requires { 2 * m ≤ length store.now }
    ensures { (d : ℕ) (conflicts : List Assignment) (n : Assignment) → Keeps d store.now m conflicts → Wide n node.mask node.values → length n ≡ d → result ≡ manifests_any conflicts n }
{
    let contains = |entry: WidePair| -> bool
        ensures { (n c : Assignment) → Wide n node.mask node.values → Wide c entry.mask entry.values → length n ≡ length c → result ≡ manifests n c }
    { node.manifests(entry) };
    first_where(store, m, contains).is_some()
}

// The first of the m conflicts that a node does not resolve.
pub fn first_unresolved(store: &[u64], m: usize, node: WidePair) -> Option<Pair>
    requires { 2 * m ≤ length store.now }
    ensures { (d : ℕ) (conflicts : List Assignment) (n : Assignment) → Keeps d store.now m conflicts → Wide n node.mask node.values → length n ≡ d → Tells result (first_unresolved conflicts n) }
{
    let first = first_from(store, 0, m, &|entry| !node.resolves(entry))?;
    let entry = entry_at(store, first);
    Some(entry.narrowed())
}

// Puts a conflict behind the m entries.
pub fn append(store: &mut [u64], m: usize, mask: u64, values: u64)
    requires { 2 * m + 2 ≤ length store.old }
    ensures kept { (d : ℕ) (conflicts : List Assignment) (c : Assignment) → Keeps d store.old m conflicts → Words c mask values → length c ≡ d → Keeps d store.new (m + 1) (conflicts ++ (c ∷ [])) }
    ensures behind { drop (2 * m + 2) store.new ≡ drop (2 * m + 2) store.old }
{
    let wide = words::widened(mask);
    store[2 * m] = wide;
    store[2 * m + 1] = values;
}

// Narrows the masks of the m entries again.
fn narrow_masks(store: &mut [u64], m: usize)
    requires { 2 * m ≤ length store.old }
    ensures { (d : ℕ) (conflicts : List Assignment) → Keeps d store.old m conflicts → store.new ≡ filled (entry_words conflicts) store.old }
{
    for entry in 0..m {
        store[2 * entry] = words::narrowed(store[2 * entry]);
    }
}

// The end of a run: narrows the masks of the m entries and zeroes the words behind them.
pub fn clear_from(store: &mut [u64], m: usize)
    requires { 2 * m ≤ length store.old }
    ensures { (d : ℕ) (conflicts : List Assignment) → Keeps d store.old m conflicts → store.new ≡ filled (entry_words conflicts) (replicate (length store.old) 0) }
{
    narrow_masks(store, m);
    store[2 * m..].fill(0);
}
