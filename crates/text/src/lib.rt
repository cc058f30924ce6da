// Texts put into a lent buffer at a place: bytes, and numbers by their digits. Each function answers with the place after
// what it put; `Puts` says so, and that every other byte stays.
#![tactic(auto)]

ghost use Rattle.std.specs.Prelude.{◌+◌, ◌<◌, ◌≤◌, ◌≡◌, map, length};
ghost use Rattle.model.specs.Digits.{digits};
ghost use Rattle.model.specs.Text.{digit_byte, decimal, hexadecimal};
ghost use Rattle.theory.specs.Digits.{Fewest};
ghost use Rattle.theory.specs.Puts.{Puts};
ghost use Rattle.text.specs.Bases.{greatest_base};

// The two bases.
const DECIMAL: u64 = 10;

const HEXADECIMAL: u64 = 16;

// Puts bytes.
pub fn put_bytes(out: &mut [u8], at: usize, bytes: &[u8]) -> usize
    requires { at + length bytes.now ≤ length out.old }
    ensures { Puts at bytes.now out.old result out.new }
{
    let end = at + bytes.len();
    out[at..end].copy_from_slice(bytes);
    end
}

// The byte of a digit: 0 to 9, then a to f.
fn digit_byte(d: u64) -> u8
    requires { d < greatest_base }
    ensures { result ≡ digit_byte d }
{
    if d < DECIMAL {
        b'0' + d as u8
    } else {
        b'a' + (d - DECIMAL) as u8
    }
}

// Puts the digits of a number at its lowest places, from the last one back.
fn put_digits(out: &mut [u8], at: usize, n: u64, base: u64, places: usize) -> usize
    requires { (0 < base) × (base ≤ greatest_base) × (at + places ≤ length out.old) }
    ensures { Puts at (map digit_byte (digits base places n)) out.old result out.new }
{
    let mut rest = n;
    for i in (0..places).rev() {
        out[at + i] = digit_byte(rest % base);
        rest /= base;
    }
    at + places
}

// The fewest decimal places that hold a number; zero has one too.
pub fn decimal_places(n: u64) -> usize
    ensures { Fewest 10 n result }
{
    n.max(1).ilog10() as usize + 1
}

// Puts a number in decimal, without leading zeros.
pub fn put_decimal(out: &mut [u8], at: usize, n: u64) -> usize
    requires { at + length (decimal n) ≤ length out.old }
    ensures { Puts at (decimal n) out.old result out.new }
{
    let places = decimal_places(n);
    put_digits(out, at, n, DECIMAL, places)
}

// Puts a number in so many hexadecimal digits.
pub fn put_hexadecimal(out: &mut [u8], at: usize, n: u64, places: usize) -> usize
    requires { at + places ≤ length out.old }
    ensures { Puts at (hexadecimal places n) out.old result out.new }
{
    put_digits(out, at, n, HEXADECIMAL, places)
}
