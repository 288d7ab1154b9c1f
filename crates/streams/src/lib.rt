// A program's input, read into a lent buffer as far as both go; and what a program does that answers it there.

#![tactic(auto)]

ghost use Rattle.std.specs.Prelude.{◌≡◌, ◌<◌, ◌≤◌, ℕ, length, take, IfOk, OnErr};
ghost use Rattle.std.specs.Io.KnownBytes.{Consumes, IsAtEnd};
ghost use Rattle.streams.specs.Inner.Counts.{IsPrefixLen};
ghost use Rattle.streams.specs.Prints.{Prints};

use std::io;
use std::io::{Read, Write};

// The characters of the longest book, and one more, so that refusal 1 shows.
pub const INPUT_SIZE: usize = 65537;

// Reads until `buf` is full or the input ends, and returns how many bytes it put at the start of `buf`: the next of the input, and with room
// left all of it. A read that fails ends it: of `buf` only the length is promised then.
pub fn read_full<R: Read>(reader: &mut R, buf: &mut [u8]) -> io::Result<usize>
    ensures ok { IfOk result (λ n. IsPrefixLen n buf.new) }
    ensures next { IfOk result (λ n. Consumes (R.remaining reader.old) (R.remaining reader.new) (take n buf.new)) }
    ensures all { IfOk result (λ n. n < length buf.new → IsAtEnd (R.remaining reader.new)) }
    ensures err { OnErr result (length buf.new ≡ length buf.old) }
{
    let mut done = 0;
    // Kept: how far a turn goes is what the read says, so this is no loop over a range.
    while done < buf.len() {
        let n = reader.read(&mut buf[done..])?;
        if n == 0 {
            return Ok(done);
        }
        done += n;
    }
    Ok(done)
}

// Reads the input into the front of a buffer, has `answer` put what is printed in its place, and prints that.
// Kept: the buffer and how many of its bytes were read one by one, here and in the programs, no slice of these: `answer` writes over all of the buffer.
pub fn print_answer<R: Read, W: Write, F: FnOnce(&mut [u8], usize) -> usize>(
    reader: &mut R,
    writer: &mut W,
    answer: F,
) -> io::Result<()>
    requires callable { (text : _) (n : ℕ) → length text.now ≡ INPUT_SIZE → n ≤ INPUT_SIZE → F.pre answer text n }
    requires within { (text : _) (n end : ℕ) (left : _) → F.post answer text n end left → end ≤ length left.now }
    ensures { IfOk result (λ _. Prints INPUT_SIZE (F.post answer)
        (R.remaining reader.old) (R.remaining reader.new) (W.contents writer.old) (W.contents writer.new)) }
{
    let mut text = [0; INPUT_SIZE];
    let n = read_full(reader, &mut text)?;
    let end = answer(&mut text, n);
    writer.write_all(&text[..end])
}
