// How the programs print an answer's kind: a refusal by its number, an ending by its name.
#![tactic(auto)]

ghost use Rattle.std.specs.Prelude.{OnOk, [], ◌∷◌, ◌++◌};
ghost use Rattle.std.specs.Io.KnownBytes.{Appends};
ghost use Rattle.model.specs.Text.{bytes, decimal};
ghost use Rattle.printing.specs.Front.{Grows};

use judge::Ending;
use printing::{print_number, print_text};
use refusal::Refusal;
use std::io;
use std::io::Write;

// Prints that a call is refused, by a number, and the byte that follows it. Whatever it answers, the writer keeps the bytes
// that it had.
pub fn print_refused<W: Write>(out: &mut W, number: u32, after: u8) -> io::Result<()>
    ensures ok { OnOk result (Appends (W.contents out.old) (W.contents out.new) (bytes "refused " ++ decimal number ++ (after ∷ []))) }
    ensures kept { Grows (W.contents out.old) (W.contents out.new) }
{
    print_text(out, b"refused ")?;
    print_number(out, u64::from(number), after)
}

// Prints a refusal by its number, and the byte that follows it. The same holds.
pub fn print_refusal<W: Write>(out: &mut W, r: Refusal, after: u8) -> io::Result<()>
    ensures { Grows (W.contents out.old) (W.contents out.new) }
{
    print_refused(out, r.number(), after)
}

// Prints the name of an ending and a space. The same holds.
pub fn print_ending<W: Write>(out: &mut W, e: Ending) -> io::Result<()>
    ensures { Grows (W.contents out.old) (W.contents out.new) }
{
    print_text(out, e.word())
}
