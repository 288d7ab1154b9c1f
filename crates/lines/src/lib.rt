// A book's characters: the digits of Base 16, the bytes of a frame, and where a line ends.

#![tactic(auto)]

ghost use Rattle.std.specs.Prelude.{◌≡◌, ◌+◌, ◌<◌, ◌≤◌, length, drop, eqb, position};
ghost use Rattle.lines.specs.Digits.{digit, byte_at};
ghost use Rattle.lines.specs.Lines.{to_end};
ghost use Rattle.lines.specs.Inner.Tables.{Tabled, Encodings};
ghost use Rattle.lines.specs.Inner.Cursors.{opening, following, is_end};

// A place in a book: the character at which a line starts, and the line's number.
#[derive(Clone, Copy)]
pub struct Cursor {
    pub at: usize,
    pub line: usize,
}

// The value of a digit's character, one case for each of the sixteen of RFC 4648, Table 5; 16 for any other character. No other place in
// the code knows a digit's value: reading and writing go through this function, or through the tables that are filled by it.
// Kept: 16 for "no digit", not an `Option`: the paper's definition `digit` in specs/Digits, of which this is the code, gives 16.
#[tactic(auto, unfolding(crate::specs::Digits::digit))]
pub fn digit_of(c: u8) -> u8
    ensures { result ≡ digit c }
{
    match c {
        b'0' => 0,
        b'1' => 1,
        b'2' => 2,
        b'3' => 3,
        b'4' => 4,
        b'5' => 5,
        b'6' => 6,
        b'7' => 7,
        b'8' => 8,
        b'9' => 9,
        b'A' => 10,
        b'B' => 11,
        b'C' => 12,
        b'D' => 13,
        b'E' => 14,
        b'F' => 15,
        _ => 16,
    }
}

// The value of every character as a table, so that reading a digit is one look-up: filled by the sixteen cases.
pub fn fill_digits(table: &mut [u8; 256])
    requires { length table.old ≡ 256 }
    ensures { Tabled table.new }
{
    for c in 0..=255 {
        table[usize::from(c)] = digit_of(c);
    }
}

// The character of every value as a table, so that writing a digit is one look-up: each character that is a digit, from the first to the
// last, stands at the value that the sixteen cases give it.
pub fn fill_characters(table: &mut [u8; 16])
    requires { length table.old ≡ 16 }
    ensures { Encodings table.new }
{
    for c in b'0'..=b'F' {
        let v = digit_of(c);
        if v < 16 {
            table[usize::from(v)] = c;
        }
    }
}

// The table by which digits are written. Its ghost field says what is true of every such table: entry v is the character of value v. So
// no function that writes by one has to ask its callers for that.
#[derive(Drop)]
pub struct Characters {
    pub table: [u8; 16],
    ghost encodings: { Encodings table },
}

impl Characters {
    pub fn new() -> Characters
        ensures { Encodings result.table }
    {
        let mut table = [0; 16];
        fill_characters(&mut table);
        Characters { table }
    }
}

// Whether 0A stands at place n of `x`, behind a character at least.
#[tactic(auto, unfolding(crate::specs::Inner::Cursors::is_end))]
pub fn is_end(x: &[u8], n: usize) -> bool
    ensures { result ≡ is_end x.now n }
{
    n > 0 && n < x.len() && x[n] == b'\n'
}

// Byte k of a frame; 0 past its end.
#[tactic(auto, unfolding(crate::specs::Digits::byte_at))]
pub fn byte_at(frame: &[u8], k: usize) -> u8
    ensures { result ≡ byte_at frame.now k }
{
    frame.get(k).copied().unwrap_or(0)
}

// Where a book's first line starts.
pub fn opening_line() -> Cursor
    ensures { result ≡ opening }
{
    Cursor { at: 0, line: 1 }
}

// Where the line behind the one that ends at place `end` starts.
pub fn following_line(c: Cursor, end: usize) -> Cursor
    requires { (end ≤ 65536) × (c.line ≤ 65536) }
    ensures { result ≡ following c end }
{
    Cursor {
        at: end + 1,
        line: c.line + 1,
    }
}

// The place of the first 0A.
fn first_end(x: &[u8]) -> Option<usize>
    ensures { result ≡ position (λ c. eqb c 10) x.now }
{
    x.iter().position(|c| *c == b'\n')
}

// Where the line that starts at `at` ends: at the next 0A, or at the end of the book.
pub fn line_end(book: &[u8], at: usize) -> usize
    requires { at ≤ length book.now }
    ensures { result ≡ at + to_end (drop at book.now) }
{
    match first_end(&book[at..]) {
        Some(n) => at + n,
        None => book.len(),
    }
}
