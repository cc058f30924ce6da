// The rules of the tables that a sheet is written of: whether their lengths agree with the numbers, and the first ground on
// which their author is refused.
#![tactic(auto)]

ghost use Rattle.std.specs.Prelude.{◌≡◌, ◌&&◌, List, ℕ, ◌*◌, ◌≤◌, ◌^◌, leb, length, map};
ghost use Rattle.model.specs.Lists.{all_of, in_turn};
ghost use Rattle.model.specs.Sheet.{Literal, edition1, decisions_allowed};
ghost use Rattle.model.specs.Calls.{first_given};
ghost use Rattle.model.specs.Tables.{total as total_of, literals};
ghost use Rattle.model.specs.TableCalls.{lengths_agree, fields_fit, length_grounds, literal_grounds, table_grounds};
ghost use Rattle.refusal.specs.Refusal.{host_found, author_found};
ghost use Rattle.theory.specs.Tables.{tables_given};
ghost use Rattle.table_rules.specs.Triple.{literal_of};

use limits::{CLAUSES, DECISIONS, LITERALS, VALUES};
use readings::STATES;
use refusal::{AuthorGround, HostGround};

// The tables of a plant as its author lends them: the numbers of decision variables, state variables and clauses, and the
// four tables. A rule takes what it looks at, be it a table's length alone.
#[derive(Clone, Copy)]
pub struct Tables<'a> {
    pub decisions: u32,
    pub states: u32,
    pub clauses: u32,
    pub sizes: &'a [u8],
    pub costs: &'a [u16],
    pub counts: &'a [u8],
    pub lits: &'a [u8],
}

// What bytes add up to, which are no more than two 32-bit numbers together say.
pub fn total(bytes: &[u8]) -> usize
    requires { length bytes.now ≤ 2 ^ 33 }
    ensures { (result ≡ total_of bytes.now) × (result ≤ 255 * length bytes.now) }
{
    bytes.iter().map(|&n| usize::from(n)).sum()
}

// The literals of a table: variable, sign and value, a byte each.
pub fn triples(lits: &[u8]) -> &[[u8; 3]]
    ensures { map literal_of result.now ≡ literals lits.now }
{
    let (triples, _) = lits.as_chunks::<3>();
    triples
}

// Whether the lengths of the tables agree with the numbers, whatever these are. The number of sizes comes first, so that
// nothing is read beyond a table and no sum wraps.
fn lengths_agree(
    d: u32,
    s: u32,
    c: u32,
    sizes: &[u8],
    costs: usize,
    counts: &[u8],
    lits: usize,
) -> bool
    ensures { (prices bytes : List ℕ) → length prices ≡ costs → length bytes ≡ lits → result ≡ lengths_agree (tables_given d s c sizes.now prices counts.now bytes) }
{
    let decisions = d as usize;
    let variables = decisions + s as usize;
    sizes.len() == variables
        && costs == total(&sizes[..decisions])
        && counts.len() == c as usize
        && lits == 3 * total(counts)
}

// The ground on which the host is refused: the lengths of the tables disagree with the numbers.
pub fn length_ground(
    d: u32,
    s: u32,
    c: u32,
    sizes: &[u8],
    costs: usize,
    counts: &[u8],
    lits: usize,
) -> Result<(), HostGround>
    ensures { (prices bytes : List ℕ) → length prices ≡ costs → length bytes ≡ lits → host_found result ≡ first_given (length_grounds (tables_given d s c sizes.now prices counts.now bytes)) }
{
    if !lengths_agree(d, s, c, sizes, costs, counts, lits) {
        return Err(HostGround::BadTables);
    }
    Ok(())
}

// Whether each domain size is from 1 to 16.
fn sized(sizes: &[u8]) -> bool
    ensures { result ≡ all_of (λ n. leb 1 n && leb n 16) sizes.now }
{
    sizes.iter().all(|&n| 1 <= n && usize::from(n) <= VALUES)
}

// Whether each clause has at most 15 literals.
fn counted(counts: &[u8]) -> bool
    ensures { result ≡ all_of (λ n. leb n 15) counts.now }
{
    counts.iter().all(|&n| usize::from(n) <= LITERALS)
}

// Whether each literal's sign is at most 1.
fn signed(lits: &[u8]) -> bool
    ensures { result ≡ all_of (λ (l : Literal). leb l.sign 1) (literals lits.now) }
{
    triples(lits).iter().all(|&[_, sign, _]| sign <= 1)
}

// Whether the tables' bytes are within these bounds.
fn fields_fit(sizes: &[u8], counts: &[u8], lits: &[u8]) -> bool
    ensures { (d s c : ℕ) (costs : List ℕ) → result ≡ fields_fit (tables_given d s c sizes.now costs counts.now lits.now) }
{
    sized(sizes) && counted(counts) && signed(lits)
}

// Whether there may be so many decision variables.
fn decisions_allowed(d: u32) -> bool
    ensures { result ≡ decisions_allowed edition1 d }
{
    1 <= d && d as usize <= DECISIONS
}

// The first ground on which a literal is refused.
fn literal_ground(domains: &[u8], lits: &[u8]) -> Result<(), AuthorGround>
    ensures { author_found result ≡ first_given (in_turn (literal_grounds domains.now) (literals lits.now)) }
{
    for &[variable, _, value] in triples(lits) {
        let Some(&size) = domains.get(usize::from(variable)) else {
            return Err(AuthorGround::SheetVariable);
        };
        if value >= size {
            return Err(AuthorGround::SheetValue);
        }
    }
    Ok(())
}

// The first ground on which the author of tables is refused.
pub fn author_ground(
    d: u32,
    s: u32,
    c: u32,
    sizes: &[u8],
    counts: &[u8],
    lits: &[u8],
) -> Result<(), AuthorGround>
    ensures { (costs : List ℕ) → author_found result ≡ first_given (table_grounds edition1 (tables_given d s c sizes.now costs counts.now lits.now)) }
{
    if !fields_fit(sizes, counts, lits) {
        return Err(AuthorGround::TablesRanges);
    }
    if !decisions_allowed(d) {
        return Err(AuthorGround::SheetParts);
    }
    if s as usize > STATES {
        return Err(AuthorGround::SheetHidden);
    }
    if c as usize > CLAUSES {
        return Err(AuthorGround::SheetClauses);
    }
    literal_ground(sizes, lits)
}
