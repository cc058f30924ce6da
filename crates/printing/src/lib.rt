// The parts of a line to a writer: texts, and numbers in decimal and in hexadecimal. Each says which bytes a writer that
// keeps its bytes has more, all of them at `Ok` and the first of them at `Err`; what the system does with them no contract
// can say.
#![tactic(auto)]

ghost use Rattle.std.specs.Prelude.{OnErr, OnOk, [], ◌∷◌, ◌++◌, ◌<◌, ◌≤◌, length, take};
ghost use Rattle.std.specs.Io.KnownBytes.{Appends};
ghost use Rattle.model.specs.Text.{decimal, hexadecimal};
ghost use Rattle.printing.specs.Front.{AppendsFront};

use std::io;
use std::io::Write;
use text::{put_decimal, put_hexadecimal};

// The longest number in decimal, and the byte that follows it.
const NUMBER_BYTES: usize = 21;

// Writes a text.
pub fn print_text<W: Write>(out: &mut W, text: &[u8]) -> io::Result<()>
    ensures ok { OnOk result (Appends (W.contents out.old) (W.contents out.new) text.now) }
    ensures err { OnErr result (AppendsFront (W.contents out.old) (W.contents out.new) text.now) }
{
    let mut done = 0;
    while done < text.len() {
        let n = out.write(&text[done..])?;
        if n == 0 {
            return Err(io::Error::from(io::ErrorKind::WriteZero));
        }
        done += n;
    }
    Ok(())
}

// Writes the front of a line, up to a place, and then a byte.
fn print_front<W: Write>(out: &mut W, line: &mut [u8], at: usize, after: u8) -> io::Result<()>
    requires { at < length line.old }
    ensures ok { OnOk result (Appends (W.contents out.old) (W.contents out.new) (take at line.old ++ (after ∷ []))) }
    ensures err { OnErr result (AppendsFront (W.contents out.old) (W.contents out.new) (take at line.old ++ (after ∷ []))) }
{
    line[at] = after;
    print_text(out, &line[..=at])
}

// Writes a number in decimal and the byte that follows it.
pub fn print_number<W: Write>(out: &mut W, n: u64, after: u8) -> io::Result<()>
    ensures ok { OnOk result (Appends (W.contents out.old) (W.contents out.new) (decimal n ++ (after ∷ []))) }
    ensures err { OnErr result (AppendsFront (W.contents out.old) (W.contents out.new) (decimal n ++ (after ∷ []))) }
{
    let mut line = [0u8; NUMBER_BYTES];
    let at = put_decimal(&mut line, 0, n);
    print_front(out, &mut line, at, after)
}

// Writes a number in so many hexadecimal digits and the byte that follows it.
pub fn print_hex<W: Write>(out: &mut W, n: u64, digits: usize, after: u8) -> io::Result<()>
    requires { digits ≤ 16 }
    ensures ok { OnOk result (Appends (W.contents out.old) (W.contents out.new) (hexadecimal digits n ++ (after ∷ []))) }
    ensures err { OnErr result (AppendsFront (W.contents out.old) (W.contents out.new) (hexadecimal digits n ++ (after ∷ []))) }
{
    let mut line = [0u8; NUMBER_BYTES];
    let at = put_hexadecimal(&mut line, 0, n, digits);
    print_front(out, &mut line, at, after)
}

// Writes a number in eight hexadecimal digits and the byte that follows it.
pub fn print_hex8<W: Write>(out: &mut W, n: u32, after: u8) -> io::Result<()>
    ensures ok { OnOk result (Appends (W.contents out.old) (W.contents out.new) (hexadecimal 8 n ++ (after ∷ []))) }
    ensures err { OnErr result (AppendsFront (W.contents out.old) (W.contents out.new) (hexadecimal 8 n ++ (after ∷ []))) }
{
    print_hex(out, u64::from(n), 8, after)
}

// Writes a number in sixteen hexadecimal digits and the byte that follows it.
pub fn print_hex16<W: Write>(out: &mut W, n: u64, after: u8) -> io::Result<()>
    ensures ok { OnOk result (Appends (W.contents out.old) (W.contents out.new) (hexadecimal 16 n ++ (after ∷ []))) }
    ensures err { OnErr result (AppendsFront (W.contents out.old) (W.contents out.new) (hexadecimal 16 n ++ (after ∷ []))) }
{
    print_hex(out, n, 16, after)
}
