// Reads a book on standard input, and writes the planner's answer: no way, a plan, or a refusal.
//
// Clearing buffers that serve every book would be most of what a short book costs, so the sizes in the book's first line choose smaller
// ones. No answer rests on that choice: what finds its buffer too short is read on, or planned again, in the largest.

#![tactic(auto)]

ghost use Rattle.std.specs.Prelude.{◌+◌, ◌*◌, ◌≤◌, ◌<◌, ◌≡◌, length, take, IfOk, IfSome, OnErr};
ghost use Rattle.planner.specs.Answer.{said};
ghost use Rattle.plan.specs.Printed.{Printed};
ghost use Rattle.plan.specs.Inner.Front.{Begins};
ghost use Rattle.plan.specs.Inner.Tried.{is_short, PrintedIfRoom};

use answers::{PLAN_SIZE, TEXT_SIZE};
use std::io;
use std::io::{Read, Write};

// The characters that are read before a text is chosen: more than a book's first line.
const FRONT_SIZE: usize = 64;

// The characters of the smaller text, 292 times those: 7, and 11 for each of at most 1,698 requests, fit it.
const SMALL_SIZE: usize = 18688;

// Plans the book in the first n bytes of `text`, and puts all that the program prints in its place: the first bytes, as many as returned.
// The buffer of the plan is long enough for every book.
#[tactic(auto, using(planner::proofs::RoomLaws::plan_room))]
fn answer(text: &mut [u8], n: usize) -> usize
    requires { (n ≤ length text.old) × (TEXT_SIZE ≤ length text.old) }
    ensures { (result ≤ length text.new) × Printed (take n text.old) (take result text.new) }
{
    let mut plan = [0u8; PLAN_SIZE];
    let planned = planner::plan(&text[..n], &mut plan);
    answers::put_answer(planned, &plan, text)
}

// Whether the answer is refusal 10.
fn is_short(answer: Result<Option<usize>, planner::Refusal>) -> bool
    ensures { result ≡ is_short (said answer) }
{
    matches!(answer, Err(planner::Refusal::BadLength))
}

// Like `answer`, with a buffer that may be too short for the book: then the text is left as it was, and `None` returned.
#[tactic(auto, using(planner::proofs::RoomLaws::plan_room))]
fn answer_in(text: &mut [u8], n: usize, plan: &mut [u8]) -> Option<usize>
    requires { (n ≤ length text.old) × ((9 ≤ length text.old) × (35 + 11 * length plan.old ≤ 5 * length text.old)) }
    ensures { PrintedIfRoom (take n text.old) text.old result text.new }
{
    let planned = planner::plan(&text[..n], plan);
    if is_short(planned) {
        return None;
    }
    Some(answers::put_answer(planned, plan, text))
}

// With a buffer for the plans of books of up to N / 10 facts.
fn answer_within<const N: usize>(text: &mut [u8], n: usize) -> Option<usize>
    requires { (n ≤ length text.old) × ((N ≤ 8490) × (SMALL_SIZE ≤ length text.old)) }
    ensures { PrintedIfRoom (take n text.old) text.old result text.new }
{
    let mut plan = [0u8; N];
    answer_in(text, n, &mut plan)
}

// The number that the two characters at a place write, whether they are digits or not.
fn size_at(book: &[u8], at: usize) -> usize
    requires { at + 2 ≤ length book.now }
    ensures { result ≤ 4335 }
{
    let high = usize::from(lines::digit_of(book[at]));
    let low = usize::from(lines::digit_of(book[at + 1]));
    16 * high + low
}

// The sum of the first counts in the book's first line.
fn values_asked(book: &[u8], attrs: usize) -> usize
    requires { (attrs ≤ 8) × (24 ≤ length book.now) }
    ensures { result ≤ 34680 }
{
    let mut n: usize = 0;
    for a in 0..attrs {
        n += size_at(book, 8 + 2 * a);
    }
    n
}

// How many facts the sizes in the book's first line give, where they stand there: F. No book is shorter than 24 characters, no first line
// longer.
// Kept: beside `sizes::fact_count`: from characters that may be no digits, before the book is read.
#[tactic(auto, using(crate::proofs::FactLaws::values_fit))]
fn facts_asked(book: &[u8]) -> usize {
    if book.len() < 24 {
        return 0;
    }
    let crews = size_at(book, 4);
    let attrs = size_at(book, 6).min(8);
    let values = values_asked(book, attrs);
    (1 + crews) * values + crews
}

// With a small buffer for the plan. `None` where that is too short, and where the book fills the text, so that more of it may follow.
fn answer_small(text: &mut [u8], n: usize) -> Option<usize>
    requires { (n ≤ length text.old) × (SMALL_SIZE ≤ length text.old) }
    ensures { PrintedIfRoom (take n text.old) text.old result text.new × (IfSome result (λ end. n < length text.old)) }
{
    if n == text.len() {
        return None;
    }
    if facts_asked(&text[..n]) <= 204 {
        answer_within::<2040>(text, n)
    } else {
        answer_within::<8490>(text, n)
    }
}

// Puts what was read, `front`, in the front of the text, and reads on behind it. Returns how many characters there are. What was read fills
// its buffer, of `FRONT_SIZE` or `SMALL_SIZE` characters, unless the input has ended.
fn read_on<R: Read>(reader: &mut R, front: &[u8], text: &mut [u8]) -> io::Result<usize>
    requires { length front.now ≤ length text.old }
    ensures ok { IfOk result (λ n. Begins front.now n text.new) }
    ensures err { OnErr result (take (length front.now) text.new ≡ front.now) }
{
    let k = front.len();
    text[..k].copy_from_slice(front);
    if k % FRONT_SIZE != 0 {
        return Ok(k);
    }
    let n = streams::read_full(reader, &mut text[k..])?;
    Ok(k + n)
}

// The text holds more characters than a book may have, so that refusal 1 shows, and the longest answer.
fn print_large<R: Read, W: Write>(reader: &mut R, writer: &mut W, front: &[u8]) -> io::Result<()>
    requires { length front.now ≤ SMALL_SIZE }
{
    let mut text = [0u8; TEXT_SIZE];
    let n = read_on(reader, front, &mut text)?;
    let end = answer(&mut text, n);
    writer.write_all(&text[..end])
}

fn print_small<R: Read, W: Write>(reader: &mut R, writer: &mut W, front: &[u8]) -> io::Result<()>
    requires { length front.now ≤ FRONT_SIZE }
{
    let mut text = [0u8; SMALL_SIZE];
    let n = read_on(reader, front, &mut text)?;
    match answer_small(&mut text, n) {
        Some(end) => writer.write_all(&text[..end]),
        None => print_large(reader, writer, &text[..n]),
    }
}

// Kept: not by `streams::print_answer`, as `judge` and `depot_page`: the text is chosen by what is read first.
fn main(rt: HostRuntime) -> io::Result<()> {
    let mut input = rt.stdin();
    let mut output = rt.stdout();
    let mut front = [0u8; FRONT_SIZE];
    let n = streams::read_full(&mut input, &mut front)?;
    if facts_asked(&front[..n]) <= 849 {
        print_small(&mut input, &mut output, &front[..n])
    } else {
        print_large(&mut input, &mut output, &front[..n])
    }
}
