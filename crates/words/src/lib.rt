// Assignments to at most sixteen decision variables as `docs/SPECIFICATION.md` has them: two words, a mask with variable 0
// as its top bit, and values with variable 0 as their top four bits. Here they are read, changed, checked for being well
// formed and compared, the last for all variables at once. `Words` says that two words are those of an assignment, `Wide`
// the same of a widened mask and values; for such words each answer is an equation with the model. Nothing relies on there
// being a variable.
#![tactic(auto)]

ghost use Rattle.std.specs.Prelude.{◌≡◌, ◌||◌, List, ℕ, ◌*◌, ◌<◌, ◌≤◌, length, get_or, take, drop, set, eqb};
ghost use Rattle.std.proofs.Math.Option.{none};
ghost use Rattle.model.specs.Digits.{digits};
ghost use Rattle.model.specs.Assignment.{Assignment, assignment_of, is_some, is_full, all_zero, nibble_fits, mask_fits, values_fit, well_formed};
ghost use Rattle.model.specs.Conflict.{manifests, resolves};
ghost use Rattle.model.specs.Order.{cost, departures};
ghost use Rattle.theory.specs.Words.{Words, byte, wide_of, Wide, sixteens};

use limits::{DECISIONS, UNASSIGNED, VALUES};

// The two words of an assignment.
#[derive(Clone, Copy)]
pub struct Pair {
    pub mask: u64,
    pub values: u64,
}

// The same with the mask widened, as comparisons read them.
#[derive(Clone, Copy)]
pub struct WidePair {
    pub mask: u64,
    pub values: u64,
}

// A variable's bit of the mask.
fn bit_at(mask: u64, v: usize) -> u64
    requires { v < 16 }
    ensures { (result ≡ get_or (digits 2 64 mask) v 0) × (result < 2) }
{
    (mask >> (63 - v)) & 1
}

// A variable's four bits of the values.
fn nibble_at(values: u64, v: usize) -> u64
    requires { v < 16 }
    ensures { (result ≡ get_or (digits 16 16 values) v 0) × (result < 16) }
{
    (values >> (60 - 4 * v)) & 15
}

// Whether a variable is assigned.
pub fn is_assigned(mask: u64, v: usize) -> bool
    requires { v < 16 }
    ensures { (d values : ℕ) → d ≤ 16 → v < d → result ≡ is_some (get_or (assignment_of d mask values) v none) }
{
    bit_at(mask, v) == 1
}

// A variable's value, or 16 where it is unassigned.
pub fn value(mask: u64, values: u64, v: usize) -> u8
    requires { v < 16 }
    ensures { (d : ℕ) → d ≤ 16 → v < d → result ≡ byte (get_or (assignment_of d mask values) v none) }
{
    if bit_at(mask, v) == 0 {
        return UNASSIGNED;
    }
    nibble_at(values, v) as u8
}

// Whether all d variables are assigned: the mask has d ones.
pub fn is_full(mask: u64, d: usize) -> bool
    ensures { (a : Assignment) (values : ℕ) → Words a mask values → length a ≡ d → result ≡ is_full a }
{
    mask.count_ones() as usize == d
}

// Takes a variable's value away, if it has one.
pub fn remove(mask: u64, values: u64, v: usize) -> Pair
    requires { v < 16 }
    ensures { (a : Assignment) → Words a mask values → v < length a → Words (set a v none) result.mask result.values }
{
    Pair {
        mask: mask ^ (bit_at(mask, v) << (63 - v)),
        values: values ^ (nibble_at(values, v) << (60 - 4 * v)),
    }
}

// Whether no bit of the mask is set beyond the first d variables; where one is, that is refusal 14.
pub fn mask_fits(mask: u64, d: usize) -> bool
    requires { d ≤ 16 }
    ensures { (domains : List ℕ) → length domains ≡ d → result ≡ mask_fits domains mask }
{
    mask << d == 0
}

// Whether a variable's bit and nibble are right for a domain of this size.
fn nibble_fits(size: u8, bit: u64, x: u64) -> bool
    ensures { result ≡ nibble_fits size bit x }
{
    if bit == 0 {
        return x == 0;
    }
    x < u64::from(size)
}

// What is left of the values after their first d nibbles: zero exactly when each nibble left is.
fn after(values: u64, d: usize) -> u64
    requires { d ≤ 16 }
    ensures { eqb result 0 ≡ all_zero (drop d (digits 16 16 values)) }
{
    if d == DECISIONS {
        return 0;
    }
    values << (4 * d)
}

// Whether each of the first d variables has a value in its domain or a zero nibble, and the nibbles after them are zero; where not, that is refusal 15.
pub fn values_fit(mask: u64, values: u64, sizes: &[u8], d: usize) -> bool
    requires { (d ≤ 16) × (d ≤ length sizes.now) }
    ensures { result ≡ values_fit (take d sizes.now) mask values }
{
    let within = (0..d).all(|v| nibble_fits(sizes[v], bit_at(mask, v), nibble_at(values, v)));
    within & (after(values, d) == 0)
}

// Whether two words are well formed over the first d of these sizes: those of an assignment within the domains.
pub fn well_formed(mask: u64, values: u64, sizes: &[u8], d: usize) -> bool
    requires { (d ≤ 16) × (d ≤ length sizes.now) }
    ensures { result ≡ well_formed (take d sizes.now) mask values }
{
    mask_fits(mask, d) & values_fit(mask, values, sizes, d)
}

// The mask widened: fifteen at the nibble of each assigned variable. Its bits are moved apart, half of each group at a time.
pub fn widened(mask: u64) -> u64
    ensures { result ≡ wide_of mask }
{
    let whole = mask >> 48;
    let eights = (whole | (whole << 24)) & 0x0000_00ff_0000_00ff;
    let fours = (eights | (eights << 12)) & 0x000f_000f_000f_000f;
    let twos = (fours | (fours << 6)) & 0x0303_0303_0303_0303;
    let bits = (twos | (twos << 3)) & 0x1111_1111_1111_1111;
    bits * 15
}

// The mask of a widened one, for sixteen variables at most: the steps of its widening backwards.
pub fn narrowed(wide: u64) -> u64
    ensures { (a : Assignment) (values : ℕ) → Wide a wide values → Words a result values }
{
    let bits = wide / 15;
    let twos = (bits & 0x0101_0101_0101_0101) | ((bits & 0x1010_1010_1010_1010) >> 3);
    let fours = (twos & 0x0003_0003_0003_0003) | ((twos & 0x0300_0300_0300_0300) >> 6);
    let eights = (fours & 0x0000_000f_0000_000f) | ((fours & 0x000f_0000_000f_0000) >> 12);
    let whole = (eights & 0x0000_0000_0000_00ff) | ((eights & 0x0000_00ff_0000_0000) >> 24);
    whole << 48
}

impl Pair {
    // The words with the mask widened.
    pub fn widened(self) -> WidePair
        ensures { (result.mask ≡ wide_of self.mask) × (result.values ≡ self.values) }
    {
        WidePair {
            mask: widened(self.mask),
            values: self.values,
        }
    }
}

impl WidePair {
    // The words with the mask narrow again.
    pub fn narrowed(self) -> Pair
        ensures { (a : Assignment) → Wide a self.mask self.values → Words a result.mask result.values }
    {
        Pair {
            mask: narrowed(self.mask),
            values: self.values,
        }
    }

    // Whether a node contains a conflict.
    pub fn manifests(self, conflict: WidePair) -> bool
        ensures { (n c : Assignment) → Wide n self.mask self.values → Wide c conflict.mask conflict.values → length n ≡ length c → result ≡ manifests n c }
    {
        let missing = (self.mask & conflict.mask) ^ conflict.mask;
        let unlike = (self.values ^ conflict.values) & conflict.mask;
        missing | unlike == 0
    }

    // Whether of two assignments one contains the other.
    pub fn related(self, other: WidePair) -> bool
        ensures { (n c : Assignment) → Wide n self.mask self.values → Wide c other.mask other.values → length n ≡ length c → result ≡ (manifests n c || manifests c n) }
    {
        let apart = (self.values ^ other.values) | (self.mask ^ other.mask);
        (apart & other.mask == 0) | (apart & self.mask == 0)
    }

    // Whether a node gives a member of a conflict another value.
    pub fn resolves(self, conflict: WidePair) -> bool
        ensures { (n c : Assignment) → Wide n self.mask self.values → Wide c conflict.mask conflict.values → length n ≡ length c → result ≡ resolves n c }
    {
        (self.values ^ conflict.values) & self.mask & conflict.mask != 0
    }
}

// A variable's value in a code, as an index.
pub fn digit_at(code: u64, v: usize) -> usize
    requires { v < 16 }
    ensures { (result ≡ get_or (digits 16 16 code) v 0) × (result < 16) }
{
    nibble_at(code, v) as usize
}

// The lower three bits of each nibble, and its top bit.
const NIBBLE_LOW: u64 = 0x7777_7777_7777_7777;

const NIBBLE_TOP: u64 = 0x8888_8888_8888_8888;

// The departures of a code: how many of its nibbles are not 0. Where one of a nibble's lower three bits is set, 7 added to them reaches its top bit.
pub fn departures(code: u64) -> u32
    ensures { (result ≡ departures (digits 16 16 code)) × (result ≤ 16) }
{
    let reached = (code & NIBBLE_LOW) + NIBBLE_LOW;
    ((reached | code) & NIBBLE_TOP).count_ones()
}

// The cost of the full assignment to d variables with this code, from a table with sixteen costs for each variable.
pub fn cost(code: u64, costs: &[u16], d: usize) -> u32
    requires { (d ≤ 16) × (16 * d ≤ length costs.now) }
    ensures { result ≡ cost (sixteens d costs.now) (digits 16 16 code) }
{
    let mut sum = 0;
    for v in 0..d {
        sum += u32::from(costs[VALUES * v + digit_at(code, v)]);
    }
    sum
}
