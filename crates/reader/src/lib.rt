// The frame reader: a book with its current position, and the frame that the line there writes.

#![tactic(auto)]

ghost use Rattle.std.specs.Prelude.{◌≡◌, ◌+◌, ◌*◌, ◌<◌, ◌≤◌, length};
ghost use Rattle.quantifiers.specs.Quantifiers.{all};
ghost use Rattle.lines.specs.Digits.{is_digit};
ghost use Rattle.lines.specs.Inner.Tables.{Tabled};
ghost use Rattle.reader.specs.Inner.Decoding.{Decoded};
ghost use Rattle.reader.specs.Inner.Front.{first_line, Begun};
ghost use Rattle.reader.specs.Inner.Reading.{LineRead, FrameRead};

use lines::Cursor;

// The frame that an ended line writes: of so many bytes, or of over 64, of which only the first 64 are kept. A line that writes none is
// malformed: refusal 2.
#[derive(Clone, Copy)]
pub enum Frame {
    Bytes(usize),
    Long(usize),
}

// Writes the line's frame to the front of `frame`, unless the line is empty, has an odd number of digits, or another character.
fn decode_short(x: &[u8], frame: &mut [u8]) -> Option<Frame>
    requires { (length x.now ≤ 65536) × (length x.now ≤ 2 * length frame.old) }
    ensures { Decoded x.now result frame.old frame.new }
{
    if x.is_empty() || x.len() % 2 == 1 {
        return None;
    }
    let n = x.len() / 2;
    for (k, pair) in x.chunks_exact(2).enumerate() {
        let high = lines::digit_of(pair[0]);
        let low = lines::digit_of(pair[1]);
        if high >= 16 || low >= 16 {
            return None;
        }
        frame[k] = high * 16 + low;
    }
    Some(Frame::Bytes(n))
}

// Whether all characters are digits.
fn are_digits(x: &[u8]) -> bool
    ensures { result ≡ all is_digit x.now }
{
    x.iter().all(|c| lines::digit_of(*c) < 16)
}

// Of a line of over 128 characters only the first 64 bytes are written: no good frame is as long, and they tell which refusal is due.
// Kept: the 64 bytes as a clause, here and below, no array: `current` and `read_frame`, which docs/PROMISES.md names, are lent a slice.
fn decode_long(x: &[u8], frame: &mut [u8]) -> Option<Frame>
    requires { (128 < length x.now) × (length frame.old ≡ 64) }
    ensures { Decoded x.now result frame.old frame.new }
{
    if x.len() % 2 == 1 || !are_digits(x) {
        return None;
    }
    decode_short(&x[..128], frame);
    Some(Frame::Long(x.len() / 2))
}

// Writes the line's frame, or the first 64 bytes of a longer one, to a buffer of 64 bytes, unless the line is malformed.
fn decode(x: &[u8], frame: &mut [u8]) -> Option<Frame>
    requires { length frame.old ≡ 64 }
    ensures { Decoded x.now result frame.old frame.new }
{
    if x.len() > 128 {
        decode_long(x, frame)
    } else {
        decode_short(x, frame)
    }
}

// Writes the bytes of the first line of `x` to the front of `frame`, until a character is no digit or 64 are written. Returns how many.
// Kept: beside `decode_short`, which tells whether any line at all is malformed: this is the one pass by the table that a good line costs
// (docs/DECISIONS.md, 46).
fn decode_front(x: &[u8], digits: &[u8], frame: &mut [u8]) -> usize
    requires { Tabled digits.now × (64 ≤ length frame.old) }
    ensures { Begun (first_line x.now) frame.old result frame.new }
{
    let most = (x.len() / 2).min(64);
    for (k, pair) in x[..2 * most].chunks_exact(2).enumerate() {
        let high = digits[usize::from(pair[0])];
        let low = digits[usize::from(pair[1])];
        if high >= 16 || low >= 16 {
            return k;
        }
        frame[k] = high * 16 + low;
    }
    most
}

// What a line gives: its frame, unless it is malformed, and the place of its end.
#[derive(Clone, Copy)]
pub struct Line {
    pub frame: Option<Frame>,
    pub end: usize,
}

// What is read at a cursor: the frame of the line there, and the cursor of the line behind it.
// Kept: beside `Line`, of one shape: `current` and `read_frame`, both named in docs/PROMISES.md, promise one each (`LineRead`, `FrameRead`).
#[derive(Clone, Copy)]
pub struct Read {
    pub frame: Option<Frame>,
    pub next: Cursor,
}

// Any line that starts at `at`, in two passes: its end is found, then an ended line is decoded.
fn any_line_at(book: &[u8], at: usize, frame: &mut [u8]) -> Line
    requires { (at ≤ length book.now) × ((length book.now ≤ 65536) × (length frame.old ≡ 64)) }
    ensures { LineRead book.now at frame.old result frame.new }
{
    let end = lines::line_end(book, at);
    if book.len() <= end {
        return Line { frame: None, end };
    }
    Line {
        frame: decode(&book[at..end], frame),
        end,
    }
}

// The line that starts at `at`; its frame is written to the front of `frame`. One pass serves an ended line of up to 64 bytes; any
// other is read anew, in two.
// Kept: `Tabled` and the lengths as clauses here and below, not a type: docs/PROMISES.md names `reader::current` and `read_frame`, so their
// parameters may not change, and a type made from their slice would be a copy of 256 bytes a line.
fn line_at(book: &[u8], at: usize, digits: &[u8], frame: &mut [u8]) -> Line
    requires { (at ≤ length book.now) × ((length book.now ≤ 65536) × ((length frame.old ≡ 64) × Tabled digits.now)) }
    ensures { LineRead book.now at frame.old result frame.new }
{
    let x = &book[at..];
    let k = decode_front(x, digits, frame);
    let n = 2 * k;
    if lines::is_end(x, n) {
        return Line {
            frame: Some(Frame::Bytes(k)),
            end: at + n,
        };
    }
    any_line_at(book, at, frame)
}

// A book with the cursor at which it is read.
#[derive(Clone, Copy)]
pub struct Reader<'a> {
    pub book: &'a [u8],
    pub cursor: Cursor,
}

impl<'a> Reader<'a> {
    // The reader of a book at a cursor.
    pub fn new(book: &'a [u8], c: Cursor) -> Reader<'a>
        ensures { (result.book ≡ book.entry) × ((result.cursor.at ≡ c.at) × (result.cursor.line ≡ c.line)) }
    {
        Reader { book, cursor: c }
    }

    // Where it stands.
    pub fn place(self) -> Cursor
        ensures { (result.at ≡ self.entry.cursor.at) × (result.line ≡ self.entry.cursor.line) }
    {
        self.cursor
    }

    // The line there; its frame is written to the front of `frame`.
    pub fn current(self, digits: &[u8], frame: &mut [u8]) -> Line
        requires { (self.cursor.at ≤ length self.book.now) × ((length self.book.now ≤ 65536) × ((length frame.old ≡ 64) × Tabled digits.now)) }
        ensures { LineRead self.entry.book.now self.entry.cursor.at frame.old result frame.new }
    {
        line_at(self.book, self.cursor.at, digits, frame)
    }

    // The reader behind the line that ends at `end`.
    pub fn next(self, end: usize) -> Reader<'a>
        requires { (end ≤ 65536) × (self.cursor.line ≤ 65536) }
        ensures { (result.book ≡ self.entry.book) × ((result.cursor.at ≡ end + 1) × (result.cursor.line ≡ self.entry.cursor.line + 1)) }
    {
        Reader::new(self.book, lines::following_line(self.place(), end))
    }
}

// The frame at a cursor, and the cursor of the line behind it.
pub fn read_frame(book: &[u8], c: Cursor, digits: &[u8], frame: &mut [u8]) -> Read
    requires { (c.at ≤ length book.now) × ((length book.now ≤ 65536) × ((length frame.old ≡ 64) × (Tabled digits.now × (c.line ≤ 65536)))) }
    ensures { FrameRead book.now c frame.old result frame.new }
{
    let reader = Reader::new(book, c);
    let line = reader.current(digits, frame);
    Read {
        frame: line.frame,
        next: reader.next(line.end).place(),
    }
}
