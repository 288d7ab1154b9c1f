// Terms, rules, and the trial of a request: whether some rule permits it in a ledger.

#![tactic(auto)]

ghost use Rattle.std.specs.Prelude.{position, ◌≡◌, ◌≤◌, ◌<◌, length, take};
ghost use Rattle.facts.specs.Facts.{holds};
ghost use Rattle.frames.specs.Inner.Fits.{Short};
ghost use Rattle.quantifiers.specs.Inner.Lists.{Each};
ghost use Rattle.rules.specs.Rules.{subject_of, a_of, v_of, directly, effectively, in_directly, in_effectively, at_least, term_holds, names, permits};

use facts::{Attr, Crew, Fact, Person};
use frames::{Rule, Term};
use requests::Request;

// Who is acted on: a user (U of GURA_G) or a user group (UG).
#[derive(Clone, Copy)]
pub enum Subject {
    User(Person),
    Group(Crew),
}

// The person or crew that a fact is about.
#[tactic(auto, unfolding(crate::specs::Rules::subject_of))]
pub fn subject_of(f: Fact) -> Subject
    ensures { result ≡ subject_of f }
{
    match f {
        Fact::Holds(p, _, _) | Fact::Member(p, _) => Subject::User(p),
        Fact::CrewHolds(c, _, _) => Subject::Group(c),
    }
}

// The field a of a fact: its attribute, or the crew.
#[tactic(auto, unfolding(crate::specs::Rules::a_of))]
fn a_of(f: Fact) -> u8
    ensures { result ≡ a_of f }
{
    match f {
        Fact::Holds(_, a, _) | Fact::CrewHolds(_, a, _) => a.0,
        Fact::Member(_, c) => c.0,
    }
}

// The field v of a fact.
#[tactic(auto, unfolding(crate::specs::Rules::v_of))]
fn v_of(f: Fact) -> u8
    ensures { result ≡ v_of f }
{
    match f {
        Fact::Holds(_, _, v) | Fact::CrewHolds(_, _, v) => v,
        Fact::Member(_, _) => 0,
    }
}

// Kind 01.
#[tactic(auto, unfolding(crate::specs::Rules::directly))]
fn holds_directly(ledger: &[u8], s: Subject, a: Attr, v: u8) -> bool
    ensures { result ≡ directly (holds ledger.now) s a v }
{
    match s {
        Subject::User(p) => facts::fact_holds(ledger, Fact::Holds(p, a, v)),
        Subject::Group(c) => facts::fact_holds(ledger, Fact::CrewHolds(c, a, v)),
    }
}

// Kind 02. A number that is no crew's holds nothing.
#[tactic(auto, using(crate::proofs::RuleLaws::crew_beyond), unfolding(crate::specs::Rules::effectively))]
fn holds_effectively(ledger: &[u8], juniors: &[u32], s: Subject, a: Attr, v: u8) -> bool
    requires { length juniors.now ≡ 32 }
    ensures { result ≡ effectively juniors.now (holds ledger.now) s a v }
{
    match s {
        Subject::User(p) => inherit::person_holds(ledger, juniors, p, a, v),
        Subject::Group(c) => c.0 < 32 && inherit::crew_holds(ledger, juniors, c, a, v),
    }
}

// Kind 03.
#[tactic(auto, unfolding(crate::specs::Rules::in_directly))]
fn is_directly_in(ledger: &[u8], s: Subject, c: Crew) -> bool
    ensures { result ≡ in_directly (holds ledger.now) s c }
{
    match s {
        Subject::User(p) => facts::fact_holds(ledger, Fact::Member(p, c)),
        Subject::Group(_) => false,
    }
}

// Kind 04.
#[tactic(auto, unfolding(crate::specs::Rules::in_effectively))]
fn is_effectively_in(ledger: &[u8], juniors: &[u32], s: Subject, c: Crew) -> bool
    requires { length juniors.now ≡ 32 }
    ensures { result ≡ in_effectively juniors.now (holds ledger.now) s c }
{
    match s {
        Subject::User(p) => inherit::person_in(ledger, juniors, p, c),
        Subject::Group(_) => false,
    }
}

// Kind 05. A number that is no crew's holds nothing.
// Kept: of one shape with kind 02; a parameter that chooses between the two searches of each arm is no plainer.
#[tactic(auto, using(crate::proofs::AtLeastLaws::at_least_beyond), unfolding(crate::specs::Rules::at_least, crate::specs::Rules::effectively))]
fn holds_at_least(ledger: &[u8], juniors: &[u32], s: Subject, a: Attr, v: u8) -> bool
    requires { length juniors.now ≡ 32 }
    ensures { result ≡ at_least juniors.now (holds ledger.now) s a v }
{
    match s {
        Subject::User(p) => inherit::person_holds_at_least(ledger, juniors, p, a, v),
        Subject::Group(c) => c.0 < 32 && inherit::crew_holds_at_least(ledger, juniors, c, a, v),
    }
}

// Whether a term holds of a subject: one case a kind.
// Kept: the kinds are the numbers written: `term_holds` of specs/Rules judges any byte, and of a number that is no kind nothing holds.
#[tactic(auto, unfolding(crate::specs::Rules::term_holds))]
pub fn term_holds(ledger: &[u8], juniors: &[u32], s: Subject, t: Term) -> bool
    requires { length juniors.now ≡ 32 }
    ensures { result ≡ term_holds juniors.now (holds ledger.now) s t }
{
    match t.kind {
        1 => holds_directly(ledger, s, Attr(t.a), t.v),
        2 => holds_effectively(ledger, juniors, s, Attr(t.a), t.v),
        3 => is_directly_in(ledger, s, Crew(t.a)),
        4 => is_effectively_in(ledger, juniors, s, Crew(t.a)),
        5 => holds_at_least(ledger, juniors, s, Attr(t.a), t.v),
        0x81 => !holds_directly(ledger, s, Attr(t.a), t.v),
        0x83 => !is_directly_in(ledger, s, Crew(t.a)),
        _ => false,
    }
}

// Whether a rule has the request's op, role, a and v.
#[tactic(auto, unfolding(crate::specs::Rules::names))]
pub fn is_named(r: &Rule, q: Request) -> bool
    ensures { result ≡ names q r.now }
{
    r.op == q.op && r.role == q.role && r.a == a_of(q.fact) && r.v == v_of(q.fact)
}

// The terms of a rule.
// Kept: `Short` as a clause, here, in `denials` and `replay`, not a field of `Rule`: `rule_of` of specs/Book makes a rule of any bytes, of n
// over 8 too.
pub fn terms_of(r: &Rule) -> &[Term]
    requires { Short r.now }
    ensures { result.now ≡ take r.now.n r.now.terms }
{
    &r.terms[..usize::from(r.n)]
}

// Whether a rule permits the request: it has the request's op, role, a and v, and all its terms hold of whom the request is about.
fn does_permit(r: &Rule, ledger: &[u8], juniors: &[u32], q: Request) -> bool
    requires { Short r.now × (length juniors.now ≡ 32) }
    ensures { result ≡ permits juniors.now (holds ledger.now) q r.now }
{
    let s = subject_of(q.fact);
    is_named(r, q)
        && terms_of(r)
            .iter()
            .all(|t| term_holds(ledger, juniors, s, *t))
}

// The place of the first rule that permits the request.
pub fn first_permitting(rules: &[Rule], ledger: &[u8], juniors: &[u32], q: Request) -> Option<usize>
    requires { Each Short rules.now × (length juniors.now ≡ 32) }
    ensures { result ≡ position (permits juniors.now (holds ledger.now) q) rules.now }
{
    rules
        .iter()
        .position(|r| does_permit(r, ledger, juniors, q))
}
