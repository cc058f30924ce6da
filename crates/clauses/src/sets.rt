// Sets of at most 512 clauses: a set is eight words, and a table has a set in each of its rows.
ghost use Rattle.std.specs.Prelude.{◌≡◌, true, ◌||◌, ◌+◌, ◌*◌, ◌<◌, ◌≤◌, length, eqb};
ghost use Rattle.clauses.specs.Numbers.{most_clauses, set_words};
ghost use Rattle.clauses.specs.Sets.{bit, in_set, Joined, Covers, Less, Marked, Within};
ghost use Rattle.clauses.specs.Pairs.{difference, of_pair, pair_at, union};

use limits::{VALUES, VARIABLES};

// The words of a set, and of a row.
pub const SET_WORDS: usize = 8;

pub type Set = [u64; SET_WORDS];

// The clauses that the first two words of a set have room for.
pub const PAIR_CLAUSES: usize = 128;

// The words of the table with a row for each variable and value.
pub const SAT_WORDS: usize = VARIABLES * VALUES * SET_WORDS;

// The words of the table with a row for each variable.
pub const USES_WORDS: usize = VARIABLES * SET_WORDS;

pub type Sat = [u64; SAT_WORDS];

// The set with the clauses of the row added.
pub fn joined(set: Set, table: &[u64], row: usize) -> Set
    requires { row * set_words + set_words ≤ length table.now }
    ensures { Joined set table.now row true result }
{
    let mut out = set;
    for (k, word) in out.iter_mut().enumerate() {
        *word |= table[row * SET_WORDS + k];
    }
    out
}

// The set with the clauses of the row added, if `on`.
pub fn joined_if(set: Set, table: &[u64], row: usize, on: bool) -> Set
    requires { on ≡ true → row * set_words + set_words ≤ length table.now }
    ensures { Joined set table.now row on result }
{
    if on {
        return joined(set, table, row);
    }
    set
}

// Whether each clause of the row is in the set. One test at the end is faster than one for each word.
pub fn covers(table: &[u64], row: usize, set: Set) -> bool
    requires { row * set_words + set_words ≤ length table.now }
    ensures { Covers table.now row (in_set set 0) result }
{
    let mut lacks = 0u64;
    for (k, held) in set.iter().enumerate() {
        let due = table[row * SET_WORDS + k];
        lacks |= due ^ (due & *held);
    }
    lacks == 0
}

// Whether each clause of the row is in the set or in the other table's row. Most trials end at the first word, before the set is joined.
pub fn covers_with(table: &[u64], row: usize, set: Set, other: &[u64], at: usize) -> bool
    requires { (row * set_words + set_words ≤ length table.now) × (at * set_words + set_words ≤ length other.now) }
    ensures { Covers table.now row (λ c. in_set set 0 c || in_set other.now at c) result }
{
    let due = table[row * SET_WORDS];
    if due & (set[0] | other[at * SET_WORDS]) != due {
        return false;
    }
    covers(table, row, joined(set, other, at))
}

// Stores in the row the clauses of the same row of the other table that are not in the set.
pub fn store_less(to: &mut [u64], table: &[u64], row: usize, set: Set)
    requires { (row * set_words + set_words ≤ length to.old) × (row * set_words + set_words ≤ length table.now) }
    ensures { Less to.old table.now row set to.new }
{
    for (k, held) in set.iter().enumerate() {
        let at = row * SET_WORDS + k;
        to[at] = table[at] ^ (table[at] & *held);
    }
}

// Puts the clause c into the row.
pub fn add(table: &mut [u64], row: usize, c: usize)
    requires { (row * set_words + set_words ≤ length table.old) × (c < most_clauses) }
    ensures { Marked (λ r. eqb row r) table.old c table.new }
{
    let at = row * SET_WORDS + c / 64;
    table[at] |= 1u64 << (c % 64);
}

// A set of at most 128 clauses: the first two words of a set.
#[derive(Clone, Copy)]
pub struct PairSet {
    pub first: u64,
    pub second: u64,
}

// Whether the word has each of its first n bits.
fn has_low(word: u64, n: usize) -> bool
    ensures { Within n (λ _. true) (bit word) result }
{
    if n < 64 {
        let low = (1u64 << n) - 1;
        return low & word == low;
    }
    (n == 64) & (word == u64::MAX)
}

impl PairSet {
    pub const EMPTY: PairSet = PairSet {
        first: 0,
        second: 0,
    };

    // The two words at the place.
    pub fn at(words: &[u64], place: usize) -> PairSet
        requires { place + 2 ≤ length words.now }
        ensures { result ≡ pair_at words.now place }
    {
        PairSet {
            first: words[place],
            second: words[place + 1],
        }
    }

    // The clauses of both sets.
    pub fn with(self, other: PairSet) -> PairSet
        ensures { result ≡ union self other }
    {
        PairSet {
            first: self.first | other.first,
            second: self.second | other.second,
        }
    }

    // The clauses of this set that the other has not.
    pub fn without(self, other: PairSet) -> PairSet
        ensures { result ≡ difference self other }
    {
        PairSet {
            first: self.first ^ (self.first & other.first),
            second: self.second ^ (self.second & other.second),
        }
    }

    // Whether the clause c is in the set.
    pub fn contains(self, c: usize) -> bool
        ensures { result ≡ of_pair self c }
    {
        if c < 64 {
            return self.first >> c & 1 == 1;
        }
        if c < PAIR_CLAUSES {
            return self.second >> (c - 64) & 1 == 1;
        }
        false
    }

    // Whether the set has each of the first n clauses.
    pub fn has_all(self, n: usize) -> bool
        ensures { Within n (λ _. true) (of_pair self) result }
    {
        if n <= 64 {
            return has_low(self.first, n);
        }
        has_low(self.first, 64) & has_low(self.second, n - 64)
    }
}
