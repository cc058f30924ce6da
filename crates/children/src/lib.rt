// Steps 4, 5 and 6 of a listing on words: the node that was removed from the queue gives way to its children, each of which
// is put into the queue unless it manifests a stored conflict. A node goes about as what its queue entry carries, and a
// child's numbers are made from its parent's: nothing is summed or searched anew. `Step` says what a node and the lent
// slices stand for, `Puts` what became of the queue; of a queue that was found full nothing is said. `Choices` goes from
// function to function whole. The queue and the store have their counts beside them, as the crates that they are of take them.
#![tactic(auto)]

ghost use Rattle.std.specs.Prelude.{◌≡◌, Bool, IfSome, MatchOption, [], ◌∷◌, ℕ, ◌+◌, ◌*◌, ◌≤◌, ◌<◌, length, get_or, set, take};
ghost use Rattle.std.proofs.Math.Option.{none, some};
ghost use Rattle.model.specs.Lists.{values_from};
ghost use Rattle.model.specs.Sheet.{Plant, edition_of, decision_sizes};
ghost use Rattle.model.specs.Assignment.{Assignment, Valid};
ghost use Rattle.model.specs.Order.{order_of};
ghost use Rattle.model.specs.Listing.{resolving, branching};
ghost use Rattle.theory.specs.Plant.{Accepted};
ghost use Rattle.theory.specs.Words.{Words, Wide};
ghost use Rattle.theory.specs.Nodes.{Filled};
ghost use Rattle.queue.specs.Order.{entry_of};
ghost use Rattle.children.specs.Children.{Choosable, NodeIs, Tables, Free, Step, Puts, variants, member, Tells};

use limits::VALUES;
use queue::Entry;
use words::{Pair, WidePair};

// A node: its mask, the code of its best state and the figure of that state.
#[derive(Clone, Copy)]
pub struct Node {
    pub mask: u64,
    pub code: u64,
    pub figure: u64,
}

// What children are made of: how many decision variables there are, their domain sizes, what each value costs or weighs in a
// table with sixteen entries for each variable, of which edition it is, and the word that hands in each variable's best value.
#[derive(Clone, Copy)]
pub struct Choices<'a> {
    pub decisions: usize,
    pub sizes: &'a [u8],
    pub prices: &'a [u16],
    pub weighed: bool,
    pub preferred: u64,
}

// Why children are not put in: they outnumber the queue's free entries.
#[derive(Clone, Copy)]
pub struct Full;

// The node of a queue's entry.
pub fn from_entry(entry: Entry, weighed: bool) -> Node
    ensures { (p : Plant) (n : Assignment) → Accepted (edition_of weighed) p → Valid (decision_sizes p) n → (entry.a, entry.b) ≡ entry_of (order_of (edition_of weighed) p) n → NodeIs weighed p n result }
{
    Node {
        mask: entry.mask(),
        code: entry.code(weighed),
        figure: entry.figure(weighed),
    }
}

// The values of a node: the code of its best state where variables are assigned.
pub fn values(node: Node) -> u64
    ensures { (w : Bool) (p : Plant) (n : Assignment) → NodeIs w p n node → Words n node.mask result }
{
    node.code & words::widened(node.mask)
}

// The same with the mask widened, as nodes are compared with conflicts.
pub fn widened(node: Node) -> WidePair
    ensures { (w : Bool) (p : Plant) (n : Assignment) → NodeIs w p n node → Wide n result.mask result.values }
{
    let wide = words::widened(node.mask);
    WidePair {
        mask: wide,
        values: node.code & wide,
    }
}

// What the table says of a variable's value: its cost or its weight.
fn price(choices: &Choices, v: usize, x: usize) -> u16
    requires { 16 * v + x < length choices.now.prices.now }
    ensures { result ≡ get_or choices.now.prices.now (16 * v + x) 0 }
{
    choices.prices[VALUES * v + x]
}

// The node with its unassigned variable v at the value x, in place of the preferred value that its best state has there.
pub fn given(choices: &Choices, node: Node, v: usize, x: usize) -> Node
    requires { (v < 16) × (x < 16) × (16 * v + 16 ≤ length choices.now.prices.now) }
    ensures { (p : Plant) (n : Assignment) → NodeIs choices.now.weighed p n node → Free p n v choices.now → x < get_or (decision_sizes p) v 0 → NodeIs choices.now.weighed p (set n v (some x)) result }
{
    let old = words::digit_at(choices.preferred, v);
    let place = 60 - 4 * v;
    Node {
        mask: node.mask | (1 << (63 - v)),
        code: (node.code ^ ((old as u64) << place)) | ((x as u64) << place),
        figure: figures::exchanged(
            node.figure,
            price(choices, v, old),
            price(choices, v, x),
            choices.weighed,
        ),
    }
}

// Puts a node into the queue, unless it manifests a stored conflict. Answers, as each of those below, how many entries there are.
pub fn put_one(
    node: Node,
    weighed: bool,
    queue: &mut [u64],
    n: usize,
    store: &[u64],
    m: usize,
) -> Result<usize, Full>
    requires { 2 * m ≤ length store.now }
    ensures { (s : Step weighed node queue.old n store.now m) → Puts s (s.parent ∷ []) queue.new result }
{
    if store::manifests_any(store, m, widened(node)) {
        return Ok(n);
    }
    if queue.len() / 2 <= n {
        return Err(Full);
    }
    let entry = queue::entry_of(node.mask, node.code, node.figure, weighed);
    queue::push(queue, n, entry);
    Ok(n + 1)
}

// Puts the node with its unassigned variable v at the value x, unless `but` is that value.
fn put_value(
    choices: &Choices,
    node: Node,
    v: usize,
    x: usize,
    but: Option<usize>,
    queue: &mut [u64],
    n: usize,
    store: &[u64],
    m: usize,
) -> Result<usize, Full>
    requires { (v < 16) × (x < 16) × (16 * v + 16 ≤ length choices.now.prices.now) × (2 * m ≤ length store.now) }
    ensures { (s : Step choices.now.weighed node queue.old n store.now m) → Free s.plant s.parent v choices.now → x < get_or (decision_sizes s.plant) v 0
        → Puts s (variants s.parent v but (x ∷ [])) queue.new result }
{
    if but == Some(x) {
        return Ok(n);
    }
    put_one(
        given(choices, node, v, x),
        choices.weighed,
        queue,
        n,
        store,
        m,
    )
}

// Puts the node with its unassigned variable v at each value of its domain but one, or at each.
fn put_values(
    choices: &Choices,
    node: Node,
    v: usize,
    but: Option<usize>,
    queue: &mut [u64],
    n: usize,
    store: &[u64],
    m: usize,
) -> Result<usize, Full>
    requires { Choosable choices.now × (v < choices.now.decisions) × (2 * m ≤ length store.now) }
    ensures { (s : Step choices.now.weighed node queue.old n store.now m) → Tables s.plant choices.now → get_or s.parent v none ≡ none
        → Puts s (variants s.parent v but (values_from 0 (get_or (decision_sizes s.plant) v 0))) queue.new result }
{
    let mut entries = n;
    for x in 0..usize::from(choices.sizes[v]) {
        entries = put_value(choices, node, v, x, but, queue, entries, store, m)?;
    }
    Ok(entries)
}

// The lowest unassigned of d variables.
fn lowest_free(mask: u64, d: usize) -> Option<usize>
    requires { d ≤ 16 }
    ensures inside { IfSome result (λ v. v < d) }
    ensures lowest { (n : Assignment) (values : ℕ) → Words n mask values → length n ≡ d → MatchOption result (Filled d n) (λ v. Filled v n × (get_or n v none ≡ none)) }
{
    for v in 0..d {
        if !words::is_assigned(mask, v) {
            return Some(v);
        }
    }
    None
}

// Step 5: puts the node with its lowest unassigned variable at each value.
pub fn branch(
    choices: &Choices,
    node: Node,
    queue: &mut [u64],
    n: usize,
    store: &[u64],
    m: usize,
) -> Result<usize, Full>
    requires { Choosable choices.now × (2 * m ≤ length store.now) }
    ensures { (s : Step choices.now.weighed node queue.old n store.now m) → Tables s.plant choices.now
        → Puts s (branching (decision_sizes s.plant) s.parent) queue.new result }
{
    let Some(v) = lowest_free(node.mask, choices.decisions) else {
        return Ok(n);
    };
    put_values(choices, node, v, None, queue, n, store, m)
}

// The conflict's value for a variable that the node with this mask leaves unassigned.
fn wanted(mask: u64, conflict: Pair, v: usize) -> Option<usize>
    requires { v < 16 }
    ensures told { (n c : Assignment) (others : ℕ) → Words n mask others → Words c conflict.mask conflict.values → length n ≡ length c → v < length n → Tells result (member (get_or n v none) (get_or c v none)) }
    ensures small { IfSome result (λ y. y < 16) }
{
    if words::is_assigned(mask, v) | !words::is_assigned(conflict.mask, v) {
        return None;
    }
    Some(words::digit_at(conflict.values, v))
}

// Step 4: for each unassigned member of the conflict in turn, puts the node with it at each other value and the members before it at the conflict's values.
pub fn resolve(
    choices: &Choices,
    node: Node,
    conflict: Pair,
    queue: &mut [u64],
    n: usize,
    store: &[u64],
    m: usize,
) -> Result<usize, Full>
    requires { Choosable choices.now × (2 * m ≤ length store.now) }
    ensures { (s : Step choices.now.weighed node queue.old n store.now m) → Tables s.plant choices.now
        → (c : Assignment) → Words c conflict.mask conflict.values → Valid (decision_sizes s.plant) c → Puts s (resolving (decision_sizes s.plant) s.parent c) queue.new result }
{
    let mut passed = node;
    let mut entries = n;
    for v in 0..choices.decisions {
        if let Some(y) = wanted(passed.mask, conflict, v) {
            entries = put_values(choices, passed, v, Some(y), queue, entries, store, m)?;
            passed = given(choices, passed, v, y);
        }
    }
    Ok(entries)
}
