// What refuses a call: who caused it, the host that calls or the author of the sheet or the tables, and on which ground. Each
// ground has the name that `include/leading.h` gives its number. The grounds are told apart by their types: what reads a
// sheet can only blame its author, and `?` says who it was where a call is refused.
#![tactic(auto)]

ghost use Rattle.std.specs.Prelude.{◌≡◌};
ghost use Rattle.model.specs.Calls.{refusal_number};
ghost use Rattle.refusal.specs.Refusal.{host_number, author_number, refusal_of};
ghost use Rattle.refusal.specs.declared.Refusal.TheVariants.{Author, Host};

// A ground on which the host is refused.
#[derive(Clone, Copy, Debug, PartialEq, Eq)]
pub enum HostGround {
    BadK,
    BadOutput,
    BadQueue,
    BadStore,
    BadMask,
    BadValues,
    BadTables,
    BadSheetRoom,
    BadValuesRoom,
}

impl HostGround {
    // Its number.
    pub fn number(self) -> u32
        ensures { result ≡ host_number self }
    {
        match self {
            HostGround::BadK => 1,
            HostGround::BadOutput => 2,
            HostGround::BadQueue => 3,
            HostGround::BadStore => 4,
            HostGround::BadMask => 14,
            HostGround::BadValues => 15,
            HostGround::BadTables => 16,
            HostGround::BadSheetRoom => 18,
            HostGround::BadValuesRoom => 19,
        }
    }
}

// A ground on which the author is refused.
#[derive(Clone, Copy, Debug, PartialEq, Eq)]
pub enum AuthorGround {
    SheetShort,
    SheetEdition,
    SheetParts,
    SheetHidden,
    SheetClauses,
    SheetVariable,
    SheetValue,
    SheetFiller,
    SheetLong,
    TablesRanges,
    SheetWeight,
}

impl AuthorGround {
    // Its number.
    pub fn number(self) -> u32
        ensures { result ≡ author_number self }
    {
        match self {
            AuthorGround::SheetShort => 5,
            AuthorGround::SheetEdition => 6,
            AuthorGround::SheetParts => 7,
            AuthorGround::SheetHidden => 8,
            AuthorGround::SheetClauses => 9,
            AuthorGround::SheetVariable => 10,
            AuthorGround::SheetValue => 11,
            AuthorGround::SheetFiller => 12,
            AuthorGround::SheetLong => 13,
            AuthorGround::TablesRanges => 17,
            AuthorGround::SheetWeight => 20,
        }
    }
}

// Who caused a refusal, and on which ground.
#[derive(Clone, Copy, Debug, PartialEq, Eq)]
pub enum Refusal {
    Host(HostGround),
    Author(AuthorGround),
}

impl Refusal {
    // The number of a refusal.
    pub fn number(self) -> u32
        ensures { result ≡ refusal_number (refusal_of self) }
    {
        match self {
            Refusal::Host(ground) => ground.number(),
            Refusal::Author(ground) => ground.number(),
        }
    }
}

impl From<HostGround> for Refusal {
    ghost from_gives = { λ ground r. r ≡ Host ground };

    fn from(ground: HostGround) -> Refusal {
        Refusal::Host(ground)
    }
}

impl From<AuthorGround> for Refusal {
    ghost from_gives = { λ ground r. r ≡ Author ground };

    fn from(ground: AuthorGround) -> Refusal {
        Refusal::Author(ground)
    }
}
