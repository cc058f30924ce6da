// Numbers, high byte first, and blocks from a reader. Past its end there are zeros, and blocks are short.
ghost use Rattle.std.specs.Prelude.{◌<◌, ◌≤◌, IfOk, OnErr, length, take};
ghost use Rattle.std.specs.Io.{ReadsAtMost};
ghost use Rattle.std.specs.Io.KnownBytes.{Consumes, IsAtEnd};
ghost use Rattle.vectors.specs.Reads.{ConsumesAtMost, ConsumesFront};

use std::io;
use std::io::Read;

// Reads until buf is full or the input ends, and answers how many bytes it put at the front of buf.
pub fn read_full<R: Read>(input: &mut R, buf: &mut [u8]) -> io::Result<usize>
    ensures bound { ReadsAtMost result buf.new }
    ensures bytes { IfOk result (λ n. Consumes (R.remaining input.old) (R.remaining input.new) (take n buf.new)) }
    ensures end { IfOk result (λ n. n < length buf.new → IsAtEnd (R.remaining input.new)) }
    ensures err { OnErr result (ConsumesFront (R.remaining input.old) (R.remaining input.new) buf.new) }
{
    let mut done = 0;
    while done < buf.len() {
        let n = input.read(&mut buf[done..])?;
        if n == 0 {
            break;
        }
        done += n;
    }
    Ok(done)
}

// Reads so many bytes.
fn read_bytes<const N: usize, R: Read>(input: &mut R) -> io::Result<[u8; N]>
    ensures { ConsumesAtMost N (R.remaining input.old) (R.remaining input.new) }
{
    let mut bytes = [0u8; N];
    read_full(input, &mut bytes)?;
    Ok(bytes)
}

// Reads a byte.
pub fn read_u8<R: Read>(input: &mut R) -> io::Result<u8>
    ensures { ConsumesAtMost 1 (R.remaining input.old) (R.remaining input.new) }
{
    Ok(u8::from_be_bytes(read_bytes(input)?))
}

// Reads a number of two bytes.
pub fn read_u16<R: Read>(input: &mut R) -> io::Result<u16>
    ensures { ConsumesAtMost 2 (R.remaining input.old) (R.remaining input.new) }
{
    Ok(u16::from_be_bytes(read_bytes(input)?))
}

// Reads a number of four bytes.
pub fn read_u32<R: Read>(input: &mut R) -> io::Result<u32>
    ensures { ConsumesAtMost 4 (R.remaining input.old) (R.remaining input.new) }
{
    Ok(u32::from_be_bytes(read_bytes(input)?))
}

// Reads a number of eight bytes.
pub fn read_u64<R: Read>(input: &mut R) -> io::Result<u64>
    ensures { ConsumesAtMost 8 (R.remaining input.old) (R.remaining input.new) }
{
    Ok(u64::from_be_bytes(read_bytes(input)?))
}

// Reads n bytes to the front of buf, or as many as it or the input has, and answers how many those are.
pub fn read_block<R: Read>(input: &mut R, buf: &mut [u8], n: usize) -> io::Result<usize>
    ensures bound { ReadsAtMost result buf.new }
    ensures asked { IfOk result (λ k. k ≤ n) }
    ensures bytes { IfOk result (λ k. Consumes (R.remaining input.old) (R.remaining input.new) (take k buf.new)) }
    ensures end { IfOk result (λ k. k < n → k < length buf.new → IsAtEnd (R.remaining input.new)) }
    ensures err { OnErr result (ConsumesFront (R.remaining input.old) (R.remaining input.new) buf.new) }
{
    let most = n.min(buf.len());
    read_full(input, &mut buf[..most])
}
