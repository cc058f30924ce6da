// Bit fields of a lent sheet: the unsigned number that stands at a bit place, most significant bit first, or nothing where
// it runs past the end; and a number put there. A field of at most 16 bits lies in the three bytes around its place. The
// functions on a slice and a place do the work; the reader further down holds both.
#![tactic(auto)]

ghost use Rattle.std.specs.Prelude.{◌≡◌, ◌+◌, ◌-◌, ◌*◌, ◌/◌, ◌%◌, ◌≤◌, ◌<◌, ◌^◌, length, get_or, drop, set};
ghost use Rattle.std.proofs.lemmas.List.Edits.{sets};
ghost use Rattle.model.specs.Digits.{number, digits};
ghost use Rattle.model.specs.Sheet.{bits_at, field};
ghost use Rattle.theory.specs.Puts.{Puts, bits_of};
ghost use Rattle.bits.specs.Field.{field_of};
ghost use Rattle.bits.specs.Blend.{blended};

// The least number that is no word of three bytes.
const ABOVE_WORDS: u32 = 16777216;

// A byte of the sheet, zero past the end.
fn byte(sheet: &[u8], i: usize) -> u32
    ensures { (result ≡ get_or sheet.now i 0) × (result < 256) }
{
    sheet.get(i).map_or(0, |b| u32::from(*b))
}

// The three bytes around a place as one word, the first byte's bits most significant, with zeros past the end.
fn word(sheet: &[u8], place: usize) -> u32
    ensures { result ≡ number 256 3 (drop (place / 8) sheet.now) }
{
    let i = place / 8;
    let first = byte(sheet, i);
    let second = byte(sheet, i + 1);
    let third = byte(sheet, i + 2);
    first * 65536 + second * 256 + third
}

// How many bits of that word come after the field of w bits at a place.
fn after(place: usize, w: usize) -> usize
    requires { w ≤ 16 }
    ensures { place % 8 + w + result ≡ 24 }
{
    24 - place % 8 - w
}

// The w bits from a place on as a number, with zeros past the end.
pub fn value(sheet: &[u8], place: usize, w: usize) -> u32
    requires { w ≤ 16 }
    ensures { result ≡ number 2 w (bits_at sheet.now w place) }
{
    let all = word(sheet, place);
    let behind = after(place, w);
    (all >> behind) & ((1 << w) - 1)
}

// The field of w bits at a place, or nothing where it runs past the end.
pub fn field_at(sheet: &[u8], place: usize, w: usize) -> Option<u32>
    requires { w ≤ 16 }
    ensures { field_of (place + w) result ≡ field sheet.now w place }
{
    let last = place / 8 + (place % 8 + w + 7) / 8;
    if last <= sheet.len() {
        Some(value(sheet, place, w))
    } else {
        None
    }
}

// The bit reader: the lent sheet, and the bit place of the field that is taken next.
#[derive(Drop)]
pub struct Reader<'a> {
    pub sheet: &'a [u8],
    pub place: usize,
}

impl<'a> Reader<'a> {
    // A reader that stands over a sheet at a place.
    pub fn over(sheet: &'a [u8], place: usize) -> Reader<'a>
        ensures { (result.sheet ≡ sheet.entry) × (result.place ≡ place) }
    {
        Reader { sheet, place }
    }

    // Takes the field of w bits at the reader's place, and moves the reader on past it.
    pub fn take(&mut self, w: usize) -> Option<u32>
        requires { (w ≤ 16) × (self.old.place + w < 2 ^ 64) }
        ensures { (self.new.sheet ≡ self.old.sheet) × (self.new.place ≡ self.old.place + w)
            × (field_of (self.old.place + w) result ≡ field self.old.sheet.now w self.old.place) }
    {
        let place = self.place;
        self.place = place + w;
        field_at(self.sheet, place, w)
    }
}

// Three fields that stand one after another.
#[derive(Clone, Copy)]
pub struct Fields {
    pub first: Option<u32>,
    pub second: Option<u32>,
    pub third: Option<u32>,
}

// The fields of a, b and c bits that stand one after another from a place on, each as if it were asked for alone.
pub fn three(sheet: &[u8], place: usize, a: usize, b: usize, c: usize) -> Fields
    requires { (a ≤ 16) × (b ≤ 16) × (c ≤ 16) × (place + a + b + c < 2 ^ 64) }
    ensures { (field_of (place + a) result.first ≡ field sheet.now a place)
        × (field_of (place + a + b) result.second ≡ field sheet.now b (place + a))
        × (field_of (place + a + b + c) result.third ≡ field sheet.now c (place + a + b)) }
{
    let mut reader = Reader::over(sheet, place);
    Fields {
        first: reader.take(a),
        second: reader.take(b),
        third: reader.take(c),
    }
}

// Sets a byte of the sheet: of its bits those in `keep` stay, and those in `field` are set. Past the end there is none.
fn set_byte(sheet: &mut [u8], i: usize, keep: u32, field: u32)
    ensures { sheet.new ≡ set sheet.old i (blended (get_or sheet.old i 0) keep field % 256) }
{
    if i < sheet.len() {
        sheet[i] = ((u32::from(sheet[i]) & keep | field) % 256) as u8;
    }
}

// Sets the three bytes around a place so. Each by itself: the field before has just set one of them, and a word of all three
// would wait for it longer.
fn set_word(sheet: &mut [u8], place: usize, keep: u32, field: u32)
    ensures { sheet.new ≡ sets sheet.old (place / 8) (digits 256 3 (blended (number 256 3 (drop (place / 8) sheet.old)) keep field)) }
{
    let i = place / 8;
    set_byte(sheet, i, keep >> 16, field >> 16);
    set_byte(sheet, i + 1, keep >> 8, field >> 8);
    set_byte(sheet, i + 2, keep, field);
}

// The bits of a word outside a field of w bits that stands so many bits before its end.
fn outside(w: usize, behind: usize) -> u32
    requires { w + behind ≤ 24 }
    ensures { result ≡ 2 ^ 24 - 2 ^ (w + behind) + (2 ^ behind - 1) }
{
    ABOVE_WORDS - (1 << (w + behind)) + ((1 << behind) - 1)
}

// Puts a number as the field of w bits at a place, and answers the place after it. Every other bit stays.
pub fn put(sheet: &mut [u8], place: usize, w: usize, v: u32) -> usize
    requires { (w ≤ 16) × (v < 2 ^ w) × (place + w ≤ 8 * length sheet.old) × (place + w < 2 ^ 64) }
    ensures { Puts place (digits 2 w v) (bits_of sheet.old) result (bits_of sheet.new) }
{
    let rest = after(place, w);
    set_word(sheet, place, outside(w, rest), v << rest);
    place + w
}
