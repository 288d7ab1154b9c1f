// The ledger's operations on a book's characters: open, request, show.

#![tactic(auto)]

ghost use Rattle.std.specs.Prelude.{◌≡◌, ℕ, ◌≤◌, ◌<◌, Bool, length};
ghost use Rattle.facts.specs.Facts.{ledger_size, holds, put_fact};
ghost use Rattle.requests.specs.Requests.{adds};
ghost use Rattle.sizes.specs.Inner.Ranges.{InRange};
ghost use Rattle.frames.specs.Book.{listed, contents_of};
ghost use Rattle.frames.specs.Inner.Fits.{Admitted};
ghost use Rattle.denials.specs.Denials.{why_not};
ghost use Rattle.ledger.specs.Ledger.{refusal_number, reply, open_in, open_reply, allowed, after, request_in, request_reply};
ghost use Rattle.ledger.specs.Show.{set_below, Tells, value_set, value_sets, show_in, show_view, view_of};
ghost use Rattle.inherit.specs.Inheritance.{person_holds, person_in};

use denials::Denial;
use facts::{Attr, Crew, LEDGER_SIZE, Person};
use frames::Book;
use std::array;

// The refusals 1-9, 11-13 and 15.
#[derive(Clone, Copy)]
pub enum Refusal {
    BadBook(frames::Refusal),
    BadLedger,
    BadRequest,
    NotPermitted(Denial),
}

// A refused book is refused.
// Kept: beside that of `frames::LentRefusal`, which the other operations answer: this one has more reasons to refuse than a book and a length.
impl From<frames::Refusal> for Refusal {
    ghost use Rattle.std.specs.Prelude.{◌≡◌};
    ghost use Rattle.ledger.specs.declared.Refusal.TheVariants.{BadBook};

    ghost from_gives = { λ r e. e ≡ BadBook r };

    fn from(r: frames::Refusal) -> Refusal {
        Refusal::BadBook(r)
    }
}

// What show gives.
#[derive(Clone, Copy)]
pub struct Shown {
    pub sets: [u32; 8],
    pub crews: u32,
}

// The table's number of a refusal.
// Kept: the definition of this name, as in `frames`; a variant that has a refusal in it has no discriminant.
pub fn refusal_number(r: Refusal) -> u8
    ensures { result ≡ refusal_number r }
{
    match r {
        Refusal::BadBook(b) => frames::refusal_number(b),
        Refusal::BadLedger => 11,
        Refusal::BadRequest => 12,
        Refusal::NotPermitted(d) => denials::denial_number(d),
    }
}

fn open_in(b: &Book, ledger: &mut [u8]) -> Result<(), Refusal>
    ensures { reply result ledger.new ≡ open_in (contents_of b.now) ledger.old }
{
    if ledger.len() != LEDGER_SIZE {
        return Err(Refusal::BadLedger);
    }
    ledger.copy_from_slice(&b.facts);
    Ok(())
}

// Writes the ledger of starting facts.
// Kept: each operation begins with these two lines, here and in `replay`, `planner` and `page`: a function that reads the book and hands it to a closure
// would be generic over what is answered and refused, and is no plainer.
pub fn open(book: &[u8], ledger: &mut [u8]) -> Result<(), Refusal>
    ensures { reply result ledger.new ≡ open_reply book.now ledger.old }
{
    let mut b = frames::no_book();
    frames::read_into(book, false, &mut b)?;
    open_in(&b, ledger)
}

// Whether some rule permits the request in the ledger.
// Kept: `Admitted` as a clause, here and in `replay`, `page` and `planner`, no type with a ghost field: the book is lent to be read into, so it
// stands half read on the way, and is `no_book` beside a refusal.
fn is_allowed(b: &Book, ledger: &[u8], q: requests::Request) -> bool
    requires { Admitted (contents_of b.now) }
    ensures { result ≡ allowed (contents_of b.now) ledger.now q }
{
    rules::first_permitting(b.rules.listed(), ledger, &b.juniors, q).is_some()
}

// Why no rule permits the request.
fn why_not(b: &Book, ledger: &[u8], q: requests::Request) -> Denial
    requires { Admitted (contents_of b.now) }
    ensures { result ≡ why_not b.now.juniors (listed b.now.rules) (holds ledger.now) q }
{
    denials::why_not(b.rules.listed(), ledger, &b.juniors, q)
}

// Sets or clears the one fact of a request.
#[tactic(auto, unfolding(crate::specs::Ledger::after))]
pub fn carry_out(ledger: &mut [u8], q: requests::Request)
    ensures { ledger.new ≡ after ledger.old q }
{
    let on = requests::is_adding(q.op);
    facts::put_fact(ledger, q.fact, on);
}

fn request_in(b: &Book, ledger: &mut [u8], request: &[u8]) -> Result<(), Refusal>
    requires { Admitted (contents_of b.now) }
    ensures { reply result ledger.new ≡ request_in (contents_of b.now) ledger.old request.now }
{
    let z = b.sizes;
    if !requests::is_suitable(z, ledger) {
        return Err(Refusal::BadLedger);
    }
    if !requests::is_request(z, request) {
        return Err(Refusal::BadRequest);
    }
    let q = requests::request_of(request);
    if !is_allowed(b, ledger, q) {
        return Err(Refusal::NotPermitted(why_not(b, ledger, q)));
    }
    carry_out(ledger, q);
    Ok(())
}

// Carries a request out where some rule permits it, or refuses it and leaves the ledger.
pub fn request(book: &[u8], ledger: &mut [u8], request: &[u8]) -> Result<(), Refusal>
    ensures { reply result ledger.new ≡ request_reply book.now ledger.old request.now }
{
    let mut b = frames::no_book();
    frames::read_into(book, false, &mut b)?;
    request_in(&b, ledger, request)
}

// The set of the numbers below n that pass a test.
pub fn set_below<F: Fn(u8) -> bool>(n: u8, passes: F) -> u32
    requires few { n ≤ 32 }
    requires callable { F.IsAlwaysCallable passes }
    ensures { (p : ℕ → Bool) → Tells (F.post passes) p n → result ≡ set_below p n }
{
    let mut set: u32 = 0;
    for v in 0..n {
        set = sets::with(set, v, passes(v));
    }
    set
}

// The set of the values of attribute a that the person effectively holds; 0 for an absent attribute.
pub fn value_set(z: sizes::Sizes, ledger: &[u8], juniors: &[u32], p: Person, a: u8) -> u32
    requires { InRange z × (length juniors.now ≡ 32) }
    ensures { result ≡ value_set z juniors.now (holds ledger.now) p a }
{
    if z.attrs <= a {
        return 0;
    }
    set_below(
        sizes::values_of(z, a),
        |v| inherit::person_holds(ledger, juniors, p, Attr(a), v),
    )
}

// The eight effective sets.
fn value_sets(z: sizes::Sizes, ledger: &[u8], juniors: &[u32], p: Person) -> [u32; 8]
    requires { InRange z × (length juniors.now ≡ 32) }
    ensures { result ≡ value_sets z juniors.now (holds ledger.now) p }
{
    array::from_fn(|a| value_set(z, ledger, juniors, p, a as u8))
}

fn show_in(b: &Book, ledger: &[u8], p: Person) -> Result<Shown, Refusal>
    requires { Admitted (contents_of b.now) }
    ensures { view_of result ≡ show_in (contents_of b.now) ledger.now p }
{
    let z = b.sizes;
    if !requests::is_suitable(z, ledger) {
        return Err(Refusal::BadLedger);
    }
    if z.persons <= p.0 {
        return Err(Refusal::BadRequest);
    }
    let sets = value_sets(z, ledger, &b.juniors, p);
    let crews = set_below(
        z.crews,
        |c| inherit::person_in(ledger, &b.juniors, p, Crew(c)),
    );
    Ok(Shown { sets, crews })
}

// A person's eight effective sets and effective crews.
pub fn show(book: &[u8], ledger: &[u8], p: Person) -> Result<Shown, Refusal>
    ensures { view_of result ≡ show_view book.now ledger.now p }
{
    let mut b = frames::no_book();
    frames::read_into(book, false, &mut b)?;
    show_in(&b, ledger, p)
}
