// The clauses of a plant sheet: from the sheet's bits to the tables of literal counts and literals.
#![tactic(auto)]

ghost use Rattle.std.specs.Prelude.{◌≡◌, ◌+◌, ◌*◌, ◌≤◌, ◌<◌, ◌^◌, length, take, IfOk};
ghost use Rattle.model.specs.Sheet.{many, read_literal, read_clause};
ghost use Rattle.model.specs.Tables.{literals, clauses as clausesIn, total};
ghost use Rattle.theory.specs.Longest.{literal_bits, clause_bits};
ghost use Rattle.readings.specs.Lengths.{clause_bytes, count_entries, literal_bytes};
ghost use Rattle.readings.specs.Answers.{read_of};
ghost use Rattle.sheet_clauses.specs.Literal.{lit_of};

use bits::Reader;
use readings::{COUNT_BITS, LITERAL_BITS};
use refusal::AuthorGround;

// A literal as its three bytes in the table.
#[derive(Clone, Copy)]
pub struct Literal {
    pub variable: u8,
    pub sign: u8,
    pub value: u8,
}

// Reads one literal over the domains.
#[tactic(auto, unfolding(model::specs::Sheet::read_literal, model::specs::Sheet::then))]
fn literal_at(reader: &mut Reader, domains: &[u8]) -> Result<Literal, AuthorGround>
    requires { reader.old.place + literal_bits < 2 ^ 64 }
    ensures sheet { reader.new.sheet ≡ reader.old.sheet }
    ensures place { reader.new.place ≤ reader.old.place + literal_bits }
    ensures read { lit_of reader.new.place result ≡ read_literal reader.old.sheet.now domains.now reader.old.place }
{
    let fields = bits::three(reader.sheet, reader.place, 6, 1, 4);
    reader.place += LITERAL_BITS;
    let variable = fields.first.ok_or(AuthorGround::SheetShort)?;
    let v = variable as usize;
    if v >= domains.len() {
        return Err(AuthorGround::SheetVariable);
    }
    let sign = fields.second.ok_or(AuthorGround::SheetShort)?;
    let value = fields.third.ok_or(AuthorGround::SheetShort)? as u8;
    if value >= domains[v] {
        return Err(AuthorGround::SheetValue);
    }
    Ok(Literal {
        variable: variable as u8,
        sign: sign as u8,
        value,
    })
}

// Reads one clause over the domains: its literals go to the front of the part that is lent, three bytes each, by index.
#[tactic(auto, unfolding(model::specs::Sheet::read_clause, model::specs::Sheet::then))]
fn clause(reader: &mut Reader, domains: &[u8], lits: &mut [u8]) -> Result<u8, AuthorGround>
    requires { (reader.old.place + clause_bits < 2 ^ 64) × (clause_bytes ≤ length lits.old) }
    ensures sheet { reader.new.sheet ≡ reader.old.sheet }
    ensures place { reader.new.place ≤ reader.old.place + clause_bits }
    ensures count { IfOk result (λ n. n ≤ 15) }
    ensures read { read_of (λ n. literals (take (3 * n) lits.new)) reader.new.place result ≡ read_clause reader.old.sheet.now domains.now reader.old.place }
{
    let count = readings::field(reader, COUNT_BITS)? as u8;
    for i in 0..usize::from(count) {
        let one = literal_at(reader, domains)?;
        lits[3 * i] = one.variable;
        lits[3 * i + 1] = one.sign;
        lits[3 * i + 2] = one.value;
    }
    Ok(count)
}

// Reads the c clauses over the domains.
pub fn clauses(
    reader: &mut Reader,
    c: usize,
    domains: &[u8],
    counts: &mut [u8],
    lits: &mut [u8],
) -> Result<(), AuthorGround>
    requires { (reader.old.place + clause_bits * c < 2 ^ 64) × (c ≤ 512) × (count_entries ≤ length counts.old) × (literal_bytes ≤ length lits.old) }
    ensures sheet { reader.new.sheet ≡ reader.old.sheet }
    ensures place { reader.new.place ≤ reader.old.place + clause_bits * c }
    ensures room { IfOk result (λ _. 3 * total (take c counts.new) ≤ clause_bytes * c) }
    ensures read { read_of (λ _. clausesIn (take c counts.new) lits.new) reader.new.place result ≡ many (read_clause reader.old.sheet.now domains.now) c reader.old.place }
{
    let mut from = 0;
    let counts = &mut counts[..c];
    for count in counts.iter_mut() {
        *count = clause(reader, domains, &mut lits[from..])?;
        from += 3 * usize::from(*count);
    }
    Ok(())
}
