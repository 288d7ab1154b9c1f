// How a book that is only judged is answered, in the book's hexadecimal: one line.

#![tactic(auto)]

ghost use Rattle.std.specs.Prelude.{◌≡◌, ◌+◌, ◌≤◌, length};
ghost use Rattle.frames.specs.Book.{contents_of, told_in};
ghost use Rattle.answers.specs.Answers.{size, total, count, sizes_bytes, book_line, answer_line};
ghost use Rattle.answers.specs.Inner.Written.{Written};

use facts::LEDGER_SIZE;
use lines::Characters;

// How many numbers below w are members of x.
fn size_of(x: u32, w: u8) -> usize
    ensures { (result ≡ size x w) × (result ≤ w) }
{
    let mut n = 0;
    for v in 0..w {
        if sets::has(x, v) {
            n += 1;
        }
    }
    n
}

// How many edges there are.
fn edge_count(juniors: &[u32; 32]) -> usize
    ensures { result ≡ total 32 juniors.now }
{
    juniors.iter().map(|x| size_of(*x, 32)).sum()
}

// How many facts a ledger holds.
fn facts_in(ledger: &[u8; LEDGER_SIZE]) -> usize
    ensures { result ≡ total 8 ledger.now }
{
    ledger.iter().map(|b| size_of(u32::from(*b), 8)).sum()
}

// A blank and a number as two bytes, in the front of a lent text.
fn put_count(n: usize, characters: &Characters, text: &mut [u8]) -> usize
    requires { 5 ≤ length text.old }
    ensures { Written text.old 0 (count n) text.new result }
{
    text[0] = b' ';
    1 + answers::put_bytes(&answers::pair(n), characters, &mut text[1..])
}

// The bytes of the sizes, with the counts of all eight attributes.
// Kept: by `sizes::values_of`, the one look-up of a count, as `sizes_bytes` of specs/Answers has it, no copy of the array.
fn sizes_bytes(z: sizes::Sizes) -> [u8; 12]
    ensures { result ≡ sizes_bytes z }
{
    let mut bytes = [1, z.persons, z.crews, z.attrs, 0, 0, 0, 0, 0, 0, 0, 0];
    for a in 0..8 {
        bytes[4 + usize::from(a)] = sizes::values_of(z, a);
    }
    bytes
}

// The line of an accepted book in the front of a lent text.
fn put_book(b: &frames::Book, characters: &Characters, text: &mut [u8]) -> usize
    requires { 43 ≤ length text.old }
    ensures { Written text.old 0 (book_line (contents_of b.now)) text.new result }
{
    let sizes = sizes_bytes(b.sizes);
    let edges = edge_count(&b.juniors);
    let facts = facts_in(&b.facts);
    let counts = [edges, b.rules.count, facts];
    let mut end = answers::put_bytes(&sizes, characters, text);
    for n in &counts {
        end += put_count(*n, characters, &mut text[end..]);
    }
    text[end] = b' ';
    end += 1;
    end + answers::put_line(&[b.query.q], characters, &mut text[end..])
}

// The line that answers a book that is only judged, in the front of a lent text.
pub fn put_reading(told: Result<(), frames::Refusal>, b: &frames::Book, text: &mut [u8]) -> usize
    requires { 43 ≤ length text.old }
    ensures { Written text.old 0 (answer_line (told_in told b.now)) text.new result }
{
    let characters = Characters::new();
    match told {
        Err(f) => {
            answers::put_refused(
                frames::refusal_number(f),
                frames::refusal_line(f),
                &characters.table,
                text,
            )
        }
        Ok(()) => put_book(b, &characters, text),
    }
}
