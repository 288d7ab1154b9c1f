// Replay: what a list of requests does from a book's starting facts, and whether it reaches the query.

#![tactic(auto)]

ghost use Rattle.std.specs.Prelude.{◌≡◌, cond, ◌||◌, ◌≤◌, eqb, length};
ghost use Rattle.facts.specs.Facts.{holds};
ghost use Rattle.frames.specs.Book.{listed, contents_of};
ghost use Rattle.frames.specs.Inner.Fits.{Short, Admitted};
ghost use Rattle.quantifiers.specs.Inner.Lists.{Each};
ghost use Rattle.requests.specs.Requests.{request_of};
ghost use Rattle.quantifiers.specs.Quantifiers.{all};
ghost use Rattle.ledger.specs.Ledger.{after};
ghost use Rattle.ledger.specs.Show.{set_below, value_set};
ghost use Rattle.sizes.specs.Sizes.{values_of};
ghost use Rattle.sizes.specs.Inner.Ranges.{InRange};
ghost use Rattle.replay.specs.Chains.{goes, run, fives};
ghost use Rattle.replay.specs.Inner.Lent.{standing, due, ran_to};
ghost use Rattle.replay.specs.Inner.Direct.{held_set, wanted};
ghost use Rattle.replay.specs.Met.{wants, met};
ghost use Rattle.replay.specs.Replay.{refusal_number, said, replay_in, replayed};

use facts::{Attr, Crew, Fact, Person};
use frames::{Book, Query, Rule};
use sizes::Sizes;

// What a list of requests comes to. Stops names the first request that does not go, counted from 1.
#[derive(Clone, Copy)]
pub enum Judgement {
    Reaches,
    Stops(usize),
    EndsShort,
}

// The book's refusals, and 14, where the list's length is no multiple of five.
pub use frames::LentRefusal as Refusal;

// The table's number of a refusal.
pub fn refusal_number(r: Refusal) -> u8
    ensures { result ≡ refusal_number r }
{
    frames::lent_number(14, r)
}

// Whether a request is well formed and its role one of the query's.
#[tactic(auto, unfolding(crate::specs::Inner::Lent::due))]
fn is_due(z: Sizes, roles: u32, q: &[u8]) -> bool
    ensures { result ≡ due z roles q.now }
{
    requests::is_request(z, q) && sets::has(roles, requests::request_of(q).role.0)
}

// One request of a list: carried out where it is well formed, its role is one of the query's and some rule permits it; else the
// ledger stays. Says whether it was.
// Kept: the rules as a lent list, here and in `run_plan`, no book: docs/PROMISES.md names both functions for "a list of records lent to every later
// step"; and the sizes, juniors and roles one by one, as `standing` of specs/Inner/Lent takes them.
fn step(
    rules: &[Rule],
    z: Sizes,
    juniors: &[u32],
    roles: u32,
    ledger: &mut [u8],
    bytes: &[u8],
) -> bool
    requires { Each Short rules.now × (length juniors.now ≡ 32) }
    ensures { (result ≡ goes (standing z juniors.now rules.now) roles ledger.old bytes.now) ×
        (ledger.new ≡ cond result (after ledger.old (request_of bytes.now)) ledger.old) }
{
    if !is_due(z, roles, bytes) {
        return false;
    }
    let q = requests::request_of(bytes);
    let found = rules::first_permitting(rules, ledger, juniors, q);
    if found.is_none() {
        return false;
    }
    ledger::carry_out(ledger, q);
    true
}

// The requests in order, each on the ledger that the one before it left. Returns the number of the request that stops them,
// counted from 1, if one does.
fn run_plan(
    rules: &[Rule],
    z: Sizes,
    juniors: &[u32],
    roles: u32,
    ledger: &mut [u8],
    plan: &[u8],
) -> Option<usize>
    requires { Each Short rules.now × (length juniors.now ≡ 32) }
    ensures { ran_to result ledger.new ≡ run (standing z juniors.now rules.now) roles ledger.old 1
        (fives plan.now) }
{
    for (i, request) in plan.chunks_exact(5).enumerate() {
        if !step(rules, z, juniors, roles, ledger, request) {
            return Some(i + 1);
        }
    }
    None
}

// The same of an accepted book under its query's roles.
fn run_in(b: &Book, ledger: &mut [u8], plan: &[u8]) -> Option<usize>
    requires { Admitted (contents_of b.now) }
    ensures { ran_to result ledger.new ≡ run (contents_of b.now) b.now.query.roles ledger.old 1 (fives plan.now) }
{
    let roles = b.query.roles;
    run_plan(b.rules.listed(), b.sizes, &b.juniors, roles, ledger, plan)
}

// The values of an attribute that the person directly holds, or effectively.
fn held_set(directly: bool, z: Sizes, ledger: &[u8], juniors: &[u32], p: Person, a: Attr) -> u32
    requires { InRange z × (length juniors.now ≡ 32) }
    ensures { result ≡ cond directly (set_below (λ v. holds ledger.now (Fact.Holds p a v)) (values_of z a.0))
        (value_set z juniors.now (holds ledger.now) p a.0) }
{
    if directly {
        return ledger::set_below(
            sizes::values_of(z, a.0),
            |v| facts::fact_holds(ledger, Fact::Holds(p, a, v)),
        );
    }
    ledger::value_set(z, ledger, juniors, p, a.0)
}

// Whether the values held of an attribute, or the crews, are exactly a set, or at least it.
fn is_wanted(exactly: bool, set: u32, held: u32) -> bool
    ensures { result ≡ wanted exactly set held }
{
    if exactly {
        held == set
    } else {
        sets::is_subset(set, held)
    }
}

// Whether the person holds each named set: exactly, or at least; directly, or effectively.
#[tactic(auto, unfolding(frames::specs::Book::contents_of, crate::specs::Met::wants))]
fn has_wanted(b: &Book, exactly: bool, directly: bool, ledger: &[u8]) -> bool
    requires { Admitted (contents_of b.now) }
    ensures { result ≡ all (λ w. wanted exactly w.set (held_set directly (contents_of b.now) (holds ledger.now) w.attr.0))
        (wants (contents_of b.now)) }
{
    let wants = &b.query.wants[..usize::from(b.query.q)];
    wants.iter().all(|w| {
        let held = held_set(
            directly,
            b.sizes,
            ledger,
            &b.juniors,
            b.query.person,
            w.attr,
        );
        is_wanted(exactly, w.set, held)
    })
}

// Whether the person is directly in exactly, or at least, the listed crews, where the query lists them.
// Kept: here and in `is_met` the mode is the number that `met` of specs/Met asks for; `exactly` and `directly` are one `if` each (`is_wanted`,
// `held_set`), and a closure for two ways is no plainer.
fn is_listed(query: &Query, crews: u8, ledger: &[u8]) -> bool
    requires { crews ≤ 32 }
    ensures { result ≡ eqb query.now.mode 1 || wanted (eqb query.now.mode 2) query.now.crews
        (set_below (λ c. holds ledger.now (Fact.Member query.now.person (record { 0 = c }))) crews) }
{
    if query.mode == 1 {
        return true;
    }
    let held = ledger::set_below(
        crews,
        |c| facts::fact_holds(ledger, Fact::Member(query.person, Crew(c))),
    );
    is_wanted(query.mode == 2, query.crews, held)
}

// Whether the query is met, by its mode: 01 at least, 02 exactly, 03 at least and directly.
pub fn is_met(b: &Book, ledger: &[u8]) -> bool
    requires { Admitted (contents_of b.now) }
    ensures { result ≡ met (contents_of b.now) (holds ledger.now) }
{
    let mode = b.query.mode;
    if !is_listed(&b.query, b.sizes.crews, ledger) {
        return false;
    }
    // By `&`, so that it is one value in every mode.
    let directly = (mode != 1) & (mode != 2);
    has_wanted(b, mode == 2, directly, ledger)
}

fn replay_in(b: &Book, plan: &[u8]) -> Result<Judgement, Refusal>
    requires { Admitted (contents_of b.now) }
    ensures { said result ≡ replay_in (contents_of b.now) plan.now }
{
    if plan.len() % 5 != 0 {
        return Err(Refusal::BadLength);
    }
    let mut ledger = b.facts;
    if let Some(k) = run_in(b, &mut ledger, plan) {
        return Ok(Judgement::Stops(k));
    }
    if is_met(b, &ledger) {
        Ok(Judgement::Reaches)
    } else {
        Ok(Judgement::EndsShort)
    }
}

// Judges a list of requests, five bytes each, from the book's starting facts.
pub fn replay(book: &[u8], plan: &[u8]) -> Result<Judgement, Refusal>
    ensures { said result ≡ replayed book.now plan.now }
{
    let mut b = frames::no_book();
    frames::read_into(book, false, &mut b)?;
    replay_in(&b, plan)
}
