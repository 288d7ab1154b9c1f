// Reads a book on standard input, and writes its page: a line for each of 64 persons, eight sets of two bytes; or the refusal.

#![tactic(auto)]

ghost use Rattle.std.specs.Prelude.{◌≤◌, length, take};
ghost use Rattle.depot_page.specs.Printed.{Printed};

use lines::Characters;
use page::PAGE_SIZE;
use std::io;

// The characters of a page's 64 lines, each of 32 digits and its end.
const LINES_SIZE: usize = 2112;

// The page of the book in the first n bytes of `text`, in the place of the book: the first bytes, as many as returned.
fn answer(text: &mut [u8], n: usize) -> usize
    requires { (n ≤ length text.old) × (LINES_SIZE ≤ length text.old) }
    ensures { (result ≤ length text.new) × Printed (take n text.old) (take result text.new) }
{
    let mut table = [0u8; PAGE_SIZE];
    let paged = page::page(&text[..n], &mut table);
    let characters = Characters::new();
    match paged {
        Ok(()) => answers::put_lines(&table, 16, &characters, text),
        Err(r) => {
            let number = page::refusal_number(r);
            let line = frames::lent_line(r);
            answers::put_refused(number, line, &characters.table, text)
        }
    }
}

fn main(rt: HostRuntime) -> io::Result<()> {
    streams::print_answer(&mut rt.stdin(), &mut rt.stdout(), answer)
}
