// What the reader of a plant sheet goes by in all its parts: how many bits a part has, how long the tables are that hold the
// largest plant, and how a field is read. The definitions have the same names, in `specs/Lengths` and in the theory's
// `specs/Longest`: `head_bits` is HEAD_BITS.
#![tactic(auto)]

ghost use Rattle.std.specs.Prelude.{◌≡◌, ◌+◌, ◌≤◌, ◌<◌, ◌^◌, IfOk};
ghost use Rattle.model.specs.Sheet.{field as field_in};
ghost use Rattle.readings.specs.Answers.{read_of};

use bits::Reader;
use limits::{CLAUSES, DECISIONS, LITERALS, VALUES, VARIABLES};
use refusal::AuthorGround;

// State variables of a plant.
pub const STATES: usize = VARIABLES - DECISIONS;

// Bits of the edition with the three counts.
pub const HEAD_BITS: usize = 29;

// Bits of a domain size, of a cost, of a weight and of a literal count.
pub const SIZE_BITS: usize = 4;

pub const COST_BITS: usize = 16;

pub const WEIGHT_BITS: usize = 8;

pub const COUNT_BITS: usize = 4;

// Bits of a literal.
pub const LITERAL_BITS: usize = 11;

// Entries of the table of sizes: one for each variable.
pub const SIZE_ENTRIES: usize = VARIABLES;

// Entries of the table of costs: one for each value of each decision variable.
pub const COST_ENTRIES: usize = DECISIONS * VALUES;

// Entries of the table of literal counts: one for each clause.
pub const COUNT_ENTRIES: usize = CLAUSES;

// Bytes of a clause's literals, three each.
pub const CLAUSE_BYTES: usize = LITERALS * 3;

// Bytes of the table of literals.
pub const LITERAL_BYTES: usize = COUNT_ENTRIES * CLAUSE_BYTES;

// Words for the numbers of decision variables, of state variables and of clauses.
pub const NUMBERS: usize = 3;

// The field of w bits that the reader takes next. Past the end the sheet is too short.
pub fn field(reader: &mut Reader, w: usize) -> Result<u32, AuthorGround>
    requires { (w ≤ 16) × (reader.old.place + w < 2 ^ 64) }
    ensures sheet { reader.new.sheet ≡ reader.old.sheet }
    ensures place { reader.new.place ≡ reader.old.place + w }
    ensures fits { IfOk result (λ n. n < 2 ^ w) }
    ensures read { read_of (λ n. n) reader.new.place result ≡ field_in reader.old.sheet.now w reader.old.place }
{
    reader.take(w).ok_or(AuthorGround::SheetShort)
}
