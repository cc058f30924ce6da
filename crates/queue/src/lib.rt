// The nodes that a listing has yet to expand: a queue in a slice that the caller lends, two words an entry. The caller
// keeps n, the number of entries. `Holds` says that the first n entries are those of the model's queue; how they stand (a
// binary heap) is known only here, and what stands beyond them is not said. An entry is one number in two words: first
// what the order goes by, figure and code of the node's best state, then the mask. So the queue compares two words, for
// either edition; only how an entry is packed (`entry_of` and the methods of `Entry`) knows which it is.
#![tactic(auto)]

ghost use Rattle.std.specs.Prelude.{◌≡◌, List, [], ◌∷◌, ℕ, ◌+◌, ◌-◌, ◌*◌, ◌≤◌, ◌<◌, length, get_or, set, replicate};
ghost use Rattle.model.specs.Lists.{All};
ghost use Rattle.model.specs.Assignment.{Assignment, Valid, mask_of, code};
ghost use Rattle.model.specs.Order.{Order, best};
ghost use Rattle.model.specs.Listing.{enqueue, leave_off};
ghost use Rattle.theory.specs.Nodes.{Ordered};
ghost use Rattle.theory.specs.Words.{Words, Wide};
ghost use Rattle.queue.specs.Order.{entry_of, mask_in, code_in, figure_in, comes_before, Keyed, Suits};
ghost use Rattle.queue.specs.Entries.{pairs};
ghost use Rattle.queue.specs.Inside.{HeapFrom, LesserChild, Sifted, Rebuilt, Stays};
ghost use Rattle.queue.specs.Queue.{Holds};

use words::{Pair, WidePair};

// The two words of an entry. Entries are in the order of their first words, and of equal ones in that of their second words.
#[derive(Clone, Copy, PartialEq, Eq, PartialOrd, Ord)]
pub struct Entry {
    pub a: u64,
    pub b: u64,
}

// Where the cost begins in the first word, with the upper bits of the code below it.
const COST_PLACE: u64 = 44;

// The lower bits of the code, which stand in the second word, and where they begin there.
const CODE_LOW: u64 = 25;

const CODE_PLACE: u64 = 39;

// Of weights: the lower bits of the code, all zero, and where the upper ones begin in the second word.
const WEIGHED_LOW: u64 = 32;

const WEIGHED_PLACE: u64 = 27;

// The bits of the mask below the sixteen that can be set.
const MASK_LOW: u64 = 48;

// The greatest word, from which a product is taken so that the greatest product comes first.
const GREATEST: u64 = 0xffff_ffff_ffff_ffff;

// The entry of a node, from its mask and the code and figure of its best state.
pub fn entry_of(mask: u64, best_code: u64, figure: u64, weighed: bool) -> Entry
    ensures { (ss : List ℕ) (o : Order) (n : Assignment) → Suits ss o → weighed ≡ o.weighed → Valid ss n → mask ≡ mask_of n → best_code ≡ code (best o.preferred n) → figure ≡ o.figure (best o.preferred n) → (result.a, result.b) ≡ entry_of o n }
{
    let low = mask >> MASK_LOW;
    if weighed {
        return Entry {
            a: GREATEST - figure,
            b: ((best_code >> WEIGHED_LOW) << WEIGHED_PLACE) + low,
        };
    }
    Entry {
        a: (figure << COST_PLACE) + (best_code >> CODE_LOW),
        b: (best_code << CODE_PLACE) + low,
    }
}

impl Entry {
    // The mask of the entry's node.
    pub fn mask(self) -> u64
        ensures { result ≡ mask_in self.b }
    {
        self.b << MASK_LOW
    }

    // The code of the best state of the entry's node.
    pub fn code(self, weighed: bool) -> u64
        ensures { result ≡ code_in weighed (self.a, self.b) }
    {
        if weighed {
            return (self.b >> WEIGHED_PLACE) << WEIGHED_LOW;
        }
        (self.a << CODE_LOW) + (self.b >> CODE_PLACE)
    }

    // The figure of the best state of the entry's node.
    pub fn figure(self, weighed: bool) -> u64
        ensures { result ≡ figure_in weighed self.a }
    {
        if weighed {
            return GREATEST - self.a;
        }
        self.a >> COST_PLACE
    }
}

// The widened mask and the values of an entry's node.
fn node_of(e: Entry, weighed: bool) -> WidePair
    ensures { (ss : List ℕ) (o : Order) (n : Assignment) → Suits ss o → weighed ≡ o.weighed → Valid ss n → (e.a, e.b) ≡ entry_of o n → Wide n result.mask result.values }
{
    let wide = words::widened(e.mask());
    WidePair {
        mask: wide,
        values: e.code(weighed) & wide,
    }
}

// Whether one entry comes before another: the queue's order.
fn comes_before(x: Entry, y: Entry) -> bool
    ensures { result ≡ comes_before (x.a, x.b) (y.a, y.b) }
{
    x < y
}

// The entry at place i.
fn entry_at(queue: &[u64], i: usize) -> Entry
    requires { 2 * i + 1 < length queue.now }
    ensures { get_or (pairs queue.now) i (0, 0) ≡ (result.a, result.b) }
{
    Entry {
        a: queue[2 * i],
        b: queue[2 * i + 1],
    }
}

// Writes an entry to place i.
fn put(queue: &mut [u64], i: usize, e: Entry)
    requires { 2 * i + 1 < length queue.old }
    ensures { pairs queue.new ≡ set (pairs queue.old) i (e.a, e.b) }
{
    queue[2 * i] = e.a;
    queue[2 * i + 1] = e.b;
}

// The child of place i that is due first: it has one, and may have two.
fn lesser_child(queue: &[u64], n: usize, i: usize) -> usize
    requires n_in_bounds { 2 * n ≤ length queue.now }
    requires i_bound { 2 * i + 1 < n }
    ensures { LesserChild n i (pairs queue.now) result }
{
    let c = 2 * i + 1;
    if c + 1 < n {
        let x = entry_at(queue, c);
        let y = entry_at(queue, c + 1);
        c + usize::from(comes_before(y, x))
    } else {
        c
    }
}

// Puts an entry at place `from` or below it, and moves entries up where they are due first, so that all from `from` on is in order.
fn sift_down(queue: &mut [u64], n: usize, from: usize, e: Entry)
    requires n_in_bounds { 2 * n ≤ length queue.old }
    requires from_lt_n { from < n }
    ensures { HeapFrom (from + 1) n (pairs queue.old) → Sifted n from e.a e.b (pairs queue.old) (pairs queue.new) }
{
    let mut i = from;
    while 2 * i + 1 < n {
        let c = lesser_child(queue, n, i);
        let child = entry_at(queue, c);
        if !comes_before(child, e) {
            break;
        }
        put(queue, i, child);
        i = c;
    }
    put(queue, i, e);
}

// Puts the node with this entry into a queue of n nodes.
pub fn push(queue: &mut [u64], n: usize, entry: Entry)
    requires { 2 * n + 2 ≤ length queue.old }
    ensures { (o : Order) (nodes : List Assignment) (node : Assignment) → Holds o n queue.old nodes → (entry.a, entry.b) ≡ entry_of o node → Holds o (n + 1) queue.new (enqueue o node nodes) }
{
    let mut i = n;
    while 0 < i {
        let p = (i - 1) / 2;
        let parent = entry_at(queue, p);
        if !comes_before(entry, parent) {
            break;
        }
        put(queue, i, parent);
        i = p;
    }
    put(queue, i, entry);
}

// Takes the node whose best state comes first out of a queue of n nodes, and returns its entry.
pub fn pop(queue: &mut [u64], n: usize) -> Entry
    requires n_in_bounds { 2 * n ≤ length queue.old }
    requires n_nonzero { 0 < n }
    ensures { (ss : List ℕ) (o : Order) (node : Assignment) (rest : List Assignment) → Keyed ss o → All (Valid ss) (node ∷ rest) → Ordered o (node ∷ rest) → Holds o n queue.old (node ∷ rest) → ((result.a, result.b) ≡ entry_of o node) × Holds o (n - 1) queue.new rest }
{
    let first = entry_at(queue, 0);
    if 1 < n {
        let last = entry_at(queue, n - 1);
        sift_down(queue, n - 1, 0, last);
    }
    first
}

// Puts any n entries in order, from the last to the first (Floyd's way).
fn rebuild(queue: &mut [u64], n: usize)
    requires { 2 * n ≤ length queue.old }
    ensures { Rebuilt n (pairs queue.old) (pairs queue.new) }
{
    for i in (0..n / 2).rev() {
        let e = entry_at(queue, i);
        sift_down(queue, n, i, e);
    }
}

// Whether an entry's node does not manifest a conflict.
fn stays(e: Entry, weighed: bool, conflict: WidePair) -> bool
    ensures { Stays weighed conflict.mask conflict.values (e.a, e.b) result }
{
    !node_of(e, weighed).manifests(conflict)
}

// Removes the nodes that manifest the conflict with these words from a queue of n nodes, and returns how many are left.
pub fn sieve(queue: &mut [u64], n: usize, weighed: bool, mask: u64, values: u64) -> usize
    requires { 2 * n ≤ length queue.old }
    ensures { (result ≤ n) × ((ss : List ℕ) (o : Order) (nodes : List Assignment) (c : Assignment) → Suits ss o → weighed ≡ o.weighed → All (Valid ss) nodes → Words c mask values → length c ≡ length ss → Holds o n queue.old nodes → Holds o result queue.new (leave_off (c ∷ []) nodes)) }
{
    let conflict = Pair { mask, values }.widened();
    let mut count = 0;
    for i in 0..n {
        let e = entry_at(queue, i);
        if stays(e, weighed, conflict) {
            put(queue, count, e);
            count += 1;
        }
    }
    rebuild(queue, count);
    count
}

// Sets every word to zero.
pub fn clear(queue: &mut [u64])
    ensures { queue.new ≡ replicate (length queue.old) 0 }
{
    queue.fill(0);
}
