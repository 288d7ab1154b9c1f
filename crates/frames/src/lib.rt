// The reader: from a book's characters to the accepted book, or to the one refusal 1-9, 16 or 17 with its line.

#![tactic(auto)]

ghost use Rattle.std.specs.Prelude.{◌≡◌, true, not, cond, ◌&&◌, ◌||◌, ◌+◌, ◌-◌, ◌*◌, ◌<◌, ◌≤◌, length, eqb, OnErr};
ghost use Rattle.quantifiers.specs.Quantifiers.{all};
ghost use Rattle.lines.specs.Digits.{byte_at};
ghost use Rattle.lines.specs.Lines.{lines};
ghost use Rattle.frames.specs.Book.{refusal_number, refusal_line, lent_number, lent_line, term_at, terms_of, rule_of, known_after, juniors_after, fact_of, facts_after, want_at, wants_of};
ghost use Rattle.frames.specs.Book.{query_of, query_after, nothing, walk, book_for, book_of, listed, no_book, told_in, told_by};
ghost use Rattle.frames.specs.Limits.{is_not, plain, all_plain, growing, same_key, twice};
ghost use Rattle.frames.specs.Inner.Judged.{Fits, judged, whole};

use facts::{Attr, Crew, Fact, LEDGER_SIZE, Person, Role};
use gate::{EDGE, FACT, Fault, Known, QUERY, RULE, SIZES};
use reader::Frame;
use sizes::Sizes;
use std::array;

// The most characters that a book may have.
const MOST: usize = 65536;

// One condition of a rule: kind, a, v as written.
// Kept: a kind, an op and a mode are numbers and no enums: `term_at`, `rule_of` and `query_of` of specs/Book give each byte as it is written,
// whatever it is, also behind a rule's n terms.
#[derive(Clone, Copy)]
pub struct Term {
    pub kind: u8,
    pub a: u8,
    pub v: u8,
}

// A rule as written; a is the attribute, in ops 05 and 06 the crew. The first n terms count.
// Kept: an array with its count beside it, here, in `Rules` and in `Query`: the library has no heap, and an accepted book is one value.
#[derive(Clone, Copy)]
pub struct Rule {
    pub op: u8,
    pub role: Role,
    pub a: u8,
    pub v: u8,
    pub n: u8,
    pub terms: [Term; 8],
}

// The rules in the book's order: the first `count`.
#[derive(Clone, Copy)]
pub struct Rules {
    pub count: usize,
    pub rules: [Rule; 512],
}

impl Rules {
    // The rules as a lent slice.
    #[tactic(auto, unfolding(crate::specs::Book::listed))]
    pub fn listed(&self) -> &[Rule]
        requires { self.now.count ≤ 512 }
        ensures { result.now ≡ listed self.now }
    {
        &self.rules[..self.count]
    }
}

// A named attribute of the query with its set of values.
#[derive(Clone, Copy)]
pub struct Want {
    pub attr: Attr,
    pub set: u32,
}

// The query; the first q wants count. The crews are those of modes 02 and 03, none in mode 01.
#[derive(Clone, Copy)]
pub struct Query {
    pub mode: u8,
    pub person: Person,
    pub roles: u32,
    pub q: u8,
    pub wants: [Want; 8],
    pub crews: u32,
}

// An accepted book, or `no_book`. Of crew s, juniors[s] is the set of its direct juniors; facts is the ledger of starting facts.
#[derive(Clone, Copy)]
pub struct Book {
    pub sizes: Sizes,
    pub juniors: [u32; 32],
    pub rules: Rules,
    pub facts: [u8; LEDGER_SIZE],
    pub query: Query,
}

// The refusals 1-9, 16 and 17.
#[derive(Clone, Copy)]
pub enum Refusal {
    TooLong,
    BadLine(Fault, usize),
}

// The table's number of a refusal.
// Kept: a function each for the number and the line, not `From`: each is the definition of its name.
pub fn refusal_number(r: Refusal) -> u8
    ensures { result ≡ refusal_number r }
{
    match r {
        Refusal::TooLong => 1,
        Refusal::BadLine(f, _) => gate::fault_number(f),
    }
}

// The line of a refusal: 0 for refusal 1.
pub fn refusal_line(r: Refusal) -> usize
    ensures { result ≡ refusal_line r }
{
    match r {
        Refusal::TooLong => 0,
        Refusal::BadLine(_, line) => line,
    }
}

// What an operation refuses that asks for a length of what it is lent beside the book: the book, or that length.
#[derive(Clone, Copy)]
pub enum LentRefusal {
    BadBook(Refusal),
    BadLength,
}

// A refused book is refused.
impl From<Refusal> for LentRefusal {
    ghost use Rattle.std.specs.Prelude.{◌≡◌};
    ghost use Rattle.frames.specs.declared.LentRefusal.TheVariants.{BadBook};

    ghost from_gives = { λ r e. e ≡ BadBook r };

    fn from(r: Refusal) -> LentRefusal {
        LentRefusal::BadBook(r)
    }
}

// The table's number of such a refusal, where `own` is the operation's for a wrong length.
pub fn lent_number(own: u8, r: LentRefusal) -> u8
    ensures { result ≡ lent_number own r }
{
    match r {
        LentRefusal::BadBook(b) => refusal_number(b),
        LentRefusal::BadLength => own,
    }
}

// Its line: 0 for a wrong length.
pub fn lent_line(r: LentRefusal) -> usize
    ensures { result ≡ lent_line r }
{
    match r {
        LentRefusal::BadBook(b) => refusal_line(b),
        LentRefusal::BadLength => 0,
    }
}

// Kept: the bound of `j` as a clause, here, in `want_at` and `sizes::count_at`: `array::from_fn` hands a place as a `usize`.
#[tactic(auto, unfolding(crate::specs::Book::term_at))]
fn term_at(x: &[u8], j: usize) -> Term
    requires { j < 256 }
    ensures { result ≡ term_at x.now j }
{
    Term {
        kind: lines::byte_at(x, 6 + 3 * j),
        a: lines::byte_at(x, 7 + 3 * j),
        v: lines::byte_at(x, 8 + 3 * j),
    }
}

fn terms_of(x: &[u8]) -> [Term; 8]
    ensures { result ≡ terms_of x.now }
{
    array::from_fn(|j| term_at(x, j))
}

// The rule that a 03 frame writes.
#[tactic(auto, unfolding(crate::specs::Book::rule_of))]
fn rule_of(x: &[u8]) -> Rule
    ensures { result ≡ rule_of x.now }
{
    Rule {
        op: lines::byte_at(x, 1),
        role: Role(lines::byte_at(x, 2)),
        a: lines::byte_at(x, 3),
        v: lines::byte_at(x, 4),
        n: lines::byte_at(x, 5),
        terms: terms_of(x),
    }
}

// What is known behind one good frame more.
#[tactic(auto, unfolding(crate::specs::Book::known_after))]
fn known_after(k: Known, x: &[u8]) -> Known
    requires { k.count ≤ 512 }
    ensures { result ≡ known_after k x.now }
{
    match lines::byte_at(x, 0) {
        SIZES => Known {
            headed: true,
            sizes: sizes::sizes_of(x),
            ..k
        },
        RULE => Known {
            count: k.count + 1,
            ..k
        },
        QUERY => Known { asked: true, ..k },
        _ => k,
    }
}

// An edge's frame puts its junior into its senior's set.
#[tactic(auto, unfolding(crate::specs::Book::juniors_after))]
fn enter_edge(m: &mut [u32; 32], x: &[u8])
    requires x_value { (byte_at x.now 0 ≡ 2) × ((byte_at x.now 1 < 32) × (byte_at x.now 2 < 32)) }
    requires m_len { length m.old ≡ 32 }
    ensures { m.new ≡ juniors_after m.old x.now }
{
    let s = usize::from(lines::byte_at(x, 1));
    m[s] = sets::with(m[s], lines::byte_at(x, 2), true);
}

// The fact that a 04 frame writes.
#[tactic(auto, unfolding(crate::specs::Book::fact_of))]
fn fact_of(k: u8, s: u8, a: u8, v: u8) -> Fact
    ensures { result ≡ fact_of k s a v }
{
    match k {
        1 => Fact::Holds(Person(s), Attr(a), v),
        2 => Fact::CrewHolds(Crew(s), Attr(a), v),
        _ => Fact::Member(Person(s), Crew(a)),
    }
}

// A fact's frame puts its fact in.
fn enter_fact(m: &mut [u8; LEDGER_SIZE], x: &[u8])
    requires { byte_at x.now 0 ≡ 4 }
    ensures { m.new ≡ facts_after m.old x.now }
{
    let k = lines::byte_at(x, 1);
    let s = lines::byte_at(x, 2);
    let a = lines::byte_at(x, 3);
    let v = lines::byte_at(x, 4);
    facts::put_fact(m, fact_of(k, s, a, v), true);
}

#[tactic(auto, unfolding(crate::specs::Book::want_at))]
fn want_at(x: &[u8], j: usize) -> Want
    requires { j < 256 }
    ensures { result ≡ want_at x.now j }
{
    Want {
        attr: Attr(lines::byte_at(x, 6 + 3 * j)),
        set: gate::pair_at(x, 7 + 3 * j),
    }
}

fn wants_of(x: &[u8]) -> [Want; 8]
    ensures { result ≡ wants_of x.now }
{
    array::from_fn(|j| want_at(x, j))
}

// The query that a 05 frame writes.
#[tactic(auto, unfolding(crate::specs::Book::query_of))]
fn query_of(x: &[u8]) -> Query
    ensures { result ≡ query_of x.now }
{
    let q = lines::byte_at(x, 5);
    Query {
        mode: lines::byte_at(x, 1),
        person: Person(lines::byte_at(x, 2)),
        roles: gate::pair_at(x, 3),
        q,
        wants: wants_of(x),
        crews: gate::quad_at(x, 6 + 3 * usize::from(q)),
    }
}

#[tactic(auto, unfolding(crate::specs::Book::query_after))]
fn query_after(q: Query, x: &[u8]) -> Query
    ensures { result ≡ query_after q x.now }
{
    if lines::byte_at(x, 0) == QUERY {
        query_of(x)
    } else {
        q
    }
}

// What stands in the place of a query, of one of its sets, of a rule and of one of its terms before a line writes it.
pub const NO_QUERY: Query = Query {
    mode: 0,
    person: Person(0),
    roles: 0,
    q: 0,
    wants: [NO_WANT; 8],
    crews: 0,
};

const NO_WANT: Want = Want {
    attr: Attr(0),
    set: 0,
};

const NO_RULE: Rule = Rule {
    op: 0,
    role: Role(0),
    a: 0,
    v: 0,
    n: 0,
    terms: [NO_TERM; 8],
};

const NO_TERM: Term = Term {
    kind: 0,
    a: 0,
    v: 0,
};

// The sizes, and what is known of a book, before its first line.
const NO_SIZES: Sizes = Sizes {
    persons: 0,
    crews: 0,
    attrs: 0,
    counts: [0; 8],
};

const NOTHING_KNOWN: Known = Known {
    headed: false,
    asked: false,
    sizes: NO_SIZES,
    count: 0,
};

// Whether a term is a "not" term.
#[tactic(auto, unfolding(crate::specs::Limits::is_not))]
fn is_not(t: Term) -> bool
    ensures { result ≡ is_not t }
{
    matches!(t.kind, 0x81 | 0x83)
}

// Whether a rule has no "not" term.
fn is_plain(r: &Rule) -> bool
    ensures { result ≡ plain r.now }
{
    r.terms.iter().take(usize::from(r.n)).all(|t| !is_not(*t))
}

// Whether a term may stand in a rule of a book with "not" terms.
fn is_growing_term(t: Term) -> bool
    ensures { result ≡ (is_not t || (eqb t.kind 1 || eqb t.kind 3)) }
{
    is_not(t) || matches!(t.kind, 1 | 3)
}

// Whether a rule of that op may stand there.
fn is_growing_op(op: u8) -> bool
    ensures { result ≡ (eqb op 1 || (eqb op 3 || eqb op 5)) }
{
    matches!(op, 1 | 3 | 5)
}

// Whether a rule may stand in a book with "not" terms.
fn is_growing(r: &Rule) -> bool
    ensures { result ≡ growing r.now }
{
    is_growing_op(r.op)
        && r.terms
            .iter()
            .take(usize::from(r.n))
            .all(|t| is_growing_term(*t))
}

// Whether two rules have the same op, a and v.
#[tactic(auto, unfolding(crate::specs::Limits::same_key))]
fn is_same_key(r: &Rule, s: &Rule) -> bool
    ensures { result ≡ same_key r.now s.now }
{
    r.op == s.op && r.a == s.a && r.v == s.v
}

// Whether two rules of the list have the same.
// Kept: a `while let`, no loop over indices: each turn takes the first rule and what is behind it, as `twice` of specs/Limits does.
fn is_twice(rs: &[Rule]) -> bool
    ensures { result ≡ twice rs.now }
{
    let mut rest = rs;
    while let [r, behind @ ..] = rest {
        if behind.iter().any(|s| is_same_key(r, s)) {
            return true;
        }
        rest = behind;
    }
    false
}

// Whether the rules of a book with "not" terms break its limits.
fn is_beyond(rs: &[Rule]) -> bool
    ensures { result ≡ (not (all growing rs.now) || twice rs.now) }
{
    !rs.iter().all(|r| is_growing(r)) || is_twice(rs)
}

// Whether the mode is wrong for a book of which `unmarked` says that it has no "not" term; for the page every mode is wrong in a book that
// has one.
fn is_wrong_mode(paged: bool, unmarked: bool, mode: u8) -> bool
    ensures { result ≡ (cond (eqb mode 3) unmarked (not unmarked) || (paged && not unmarked)) }
{
    (mode == 3) == unmarked || paged && !unmarked
}

// How many bytes the line's frame has, which stands in the front of `buffer`; or the line's lowest refusal.
fn judge_line(known: Known, frame: Option<Frame>, buffer: &[u8]) -> Result<usize, Fault>
    requires { Fits frame buffer.now }
    ensures { result ≡ judged known frame buffer.now }
{
    match frame {
        None => Err(Fault::Malformed),
        Some(Frame::Long(n)) => Err(gate::long_fault(known, buffer, n)),
        Some(Frame::Bytes(n)) => {
            gate::judge_frame(known, &buffer[..n])?;
            Ok(n)
        }
    }
}

// 16 or 17, of the whole book. The limits are those of a book with "not" terms: the rules of any other are not looked at again.
#[tactic(auto, unfolding(crate::specs::Limits::beyond_not, crate::specs::Limits::wrong_mode))]
fn judge_whole(rules: &[Rule], unmarked: bool, mode: u8, paged: bool) -> Result<(), Fault>
    requires { unmarked ≡ all_plain rules.now }
    ensures { result ≡ whole paged rules.now mode }
{
    if !unmarked && is_beyond(rules) {
        return Err(Fault::BeyondNot);
    }
    if is_wrong_mode(paged, unmarked, mode) {
        return Err(Fault::WrongMode);
    }
    Ok(())
}

// A book of no line.
#[tactic(auto, unfolding(facts::specs::Facts::no_facts))]
pub fn no_book() -> Book
    ensures { result ≡ no_book }
{
    Book {
        sizes: NO_SIZES,
        juniors: [0; 32],
        rules: Rules {
            count: 0,
            rules: [NO_RULE; 512],
        },
        facts: [0; LEDGER_SIZE],
        query: NO_QUERY,
    }
}

// Line by line, into a lent book: the earliest bad line, the end without a query, a fault of the whole, or none.
fn read_lines(book: &[u8], paged: bool, b: &mut Book) -> Result<(), Refusal>
    requires { length book.now ≤ 65536 }
    ensures { told_in result b.new ≡ walk paged nothing 1 (lines book.now) }
{
    let mut known = NOTHING_KNOWN;
    b.juniors = [0; 32];
    b.facts = [0; LEDGER_SIZE];
    b.query = NO_QUERY;
    // Whether no rule so far has a "not" term.
    let mut unmarked = true;
    let mut frame = [0; 64];
    let mut digits = [0; 256];
    lines::fill_digits(&mut digits);
    let mut cursor = lines::opening_line();
    // Kept: how far a turn goes is what the line there says, so this is no loop over a range.
    while cursor.at < book.len() {
        let read = reader::read_frame(book, cursor, &digits, &mut frame);
        // Kept: a `match`, here and below, not `map_err(..)?`: the proof did not close, since what the closure answers is not known behind it.
        let n = match judge_line(known, read.frame, &frame) {
            Ok(n) => n,
            Err(f) => return Err(Refusal::BadLine(f, cursor.line)),
        };
        let x = &frame[..n];
        // Of a good frame only what its kind enters is touched.
        match lines::byte_at(x, 0) {
            EDGE => enter_edge(&mut b.juniors, x),
            FACT => enter_fact(&mut b.facts, x),
            RULE => {
                let rule = rule_of(x);
                unmarked &= is_plain(&rule);
                b.rules.rules[known.count] = rule;
                known.count += 1;
            }
            _ => {
                b.query = query_after(b.query, x);
                known = known_after(known, x);
            }
        }
        cursor = read.next;
    }
    if !known.asked {
        return Err(Refusal::BadLine(Fault::Misplaced, cursor.line));
    }
    if let Err(f) = judge_whole(&b.rules.rules[..known.count], unmarked, b.query.mode, paged) {
        // Behind a query's line no line is good, so that it is the last.
        return Err(Refusal::BadLine(f, cursor.line - 1));
    }
    b.sizes = known.sizes;
    b.rules.count = known.count;
    Ok(())
}

// Reads any characters at all, for the page or not, into a lent book: the accepted book, or the one refusal 1-9, 16 or 17, beside which the
// lent book is `no_book`. The page refuses every book with a "not" term by 17.
// Kept: the book is lent beside a `Result` of nothing, and `paged` is a flag, as `book_for` has it: a `Result` that held the book's 17 KB was
// copied up to six times, 44% more on the smallest book (docs/PERFORMANCE.md, The code in today's forms).
#[tactic(auto, unfolding(crate::specs::Book::book_for))]
pub fn read_into(book: &[u8], paged: bool, b: &mut Book) -> Result<(), Refusal>
    ensures told { told_in result b.new ≡ book_for paged book.now }
    ensures cleared { OnErr result (b.new ≡ no_book) }
{
    if book.len() > MOST {
        *b = no_book();
        return Err(Refusal::TooLong);
    }
    if let Err(r) = read_lines(book, paged, b) {
        *b = no_book();
        return Err(r);
    }
    Ok(())
}

// The accepted book by value, for the page or not. The operations lend a book to `read_into`, so that none is copied.
// Kept: no crate calls it; docs/PROMISES.md names it, and `read_refused`, `read_accepted` and `read_sound` of proofs/BookLaws are its words.
pub fn read(book: &[u8], paged: bool) -> Result<Book, Refusal>
    ensures { told_by result ≡ book_for paged book.now }
{
    let mut b = no_book();
    read_into(book, paged, &mut b)?;
    Ok(b)
}
