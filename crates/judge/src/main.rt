// Reads a book on standard input, and writes the line that answers it.

#![tactic(auto)]

ghost use Rattle.std.specs.Prelude.{◌≡◌, ◌≤◌, length, take};
ghost use Rattle.frames.specs.Book.{book_of};
ghost use Rattle.answers.specs.Answers.{answer_line};

use std::io;
use streams::INPUT_SIZE;

// Reads the book in the first n bytes of `text`, and puts all that the program prints in its place: the first bytes, as many as returned.
fn answer(text: &mut [u8], n: usize) -> usize
    requires { (n ≤ length text.old) × (INPUT_SIZE ≤ length text.old) }
    ensures { (result ≤ length text.new) × (take result text.new ≡ answer_line (book_of (take n text.old))) }
{
    let mut b = frames::no_book();
    let told = frames::read_into(&text[..n], false, &mut b);
    readings::put_reading(told, &b, text)
}

fn main(rt: HostRuntime) -> io::Result<()> {
    streams::print_answer(&mut rt.stdin(), &mut rt.stdout(), answer)
}
