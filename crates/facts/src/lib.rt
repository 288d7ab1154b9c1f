// The facts of a ledger: what they are about, where each has its place, how one is looked up and put.

#![tactic(auto)]

ghost use Rattle.std.specs.Prelude.{◌≡◌, ◌*◌};
ghost use Rattle.quantifiers.specs.Quantifiers.{any_from};
ghost use Rattle.facts.specs.Facts.{fits, set_at, set_width, member_of, holds, put_fact};
ghost use Rattle.facts.specs.Inner.Numbered.{numbered};
ghost use Rattle.facts.specs.Inner.Places.{place_of};

// A person, a crew, an attribute and a role, each by its number: the disjoint sets U, UG, UA and AR of GURA_G.
#[derive(Clone, Copy, PartialEq, Eq)]
pub struct Person(pub u8);

#[derive(Clone, Copy, PartialEq, Eq)]
pub struct Crew(pub u8);

#[derive(Clone, Copy, PartialEq, Eq)]
pub struct Attr(pub u8);

#[derive(Clone, Copy, PartialEq, Eq)]
pub struct Role(pub u8);

// A person directly holds a value of an attribute; a crew does; a person is directly in a crew.
#[derive(Clone, Copy)]
pub enum Fact {
    Holds(Person, Attr, u8),
    CrewHolds(Crew, Attr, u8),
    Member(Person, Crew),
}

// A ledger's bytes; where the attributes of crews begin among them, and where the crews of persons.
pub const LEDGER_SIZE: usize = 1792;

pub const CREWS_AT: usize = 1024;

pub const MEMBERS_AT: usize = 1536;

// The place of a fact: the number v of the set of w bytes at a byte of the ledger.
#[derive(Clone, Copy)]
struct Place {
    at: usize,
    w: usize,
    v: u8,
}

// Whether a ledger has a place for the fact.
#[tactic(auto, unfolding(crate::specs::Facts::fits))]
pub fn fact_fits(f: Fact) -> bool
    ensures { result ≡ fits f }
{
    match f {
        Fact::Holds(p, a, v) => p.0 < 64 && a.0 < 8 && v < 16,
        Fact::CrewHolds(c, a, v) => c.0 < 32 && a.0 < 8 && v < 16,
        Fact::Member(p, c) => p.0 < 64 && c.0 < 32,
    }
}

// The place of a fact, where the ledger has one for it.
#[tactic(auto, unfolding(crate::specs::Facts::set_at, crate::specs::Facts::set_width, crate::specs::Facts::member_of))]
fn place_of(f: Fact) -> Option<Place>
    ensures { result ≡ place_of f }
{
    if !fact_fits(f) {
        return None;
    }
    Some(match f {
        Fact::Holds(p, a, v) => Place {
            at: 16 * usize::from(p.0) + 2 * usize::from(a.0),
            w: 2,
            v,
        },
        Fact::CrewHolds(c, a, v) => Place {
            at: CREWS_AT + 16 * usize::from(c.0) + 2 * usize::from(a.0),
            w: 2,
            v,
        },
        Fact::Member(p, c) => Place {
            at: MEMBERS_AT + 4 * usize::from(p.0),
            w: 4,
            v: c.0,
        },
    })
}

// Whether the fact is in the ledger. A fact without a place is in none.
// Kept: a `match`, here and in `holds_from`, not `is_some_and`: its proof did not close, since the closure asks for the bounds of the place; and two
// functions, each of its own definition, which differ in the one call behind it.
pub fn fact_holds(ledger: &[u8], f: Fact) -> bool
    ensures { result ≡ holds ledger.now f }
{
    match place_of(f) {
        Some(place) => sets::has_at(ledger, place.at, place.w, place.v),
        None => false,
    }
}

// Whether the fact, or one of the same set with a higher number, is in the ledger: of a value, whether it or a higher one of its attribute is
// held. The set is looked at once.
pub fn holds_from(ledger: &[u8], f: Fact) -> bool
    ensures { result ≡ any_from (λ w. holds ledger.now (numbered f w)) (member_of f) (8 * set_width f) }
{
    match place_of(f) {
        Some(place) => sets::has_from_at(ledger, place.at, place.w, place.v),
        None => false,
    }
}

// The fact put into the ledger, or taken out. A fact without a place changes nothing.
pub fn put_fact(ledger: &mut [u8], f: Fact, on: bool)
    ensures { ledger.new ≡ put_fact ledger.old f on }
{
    if let Some(place) = place_of(f) {
        sets::put_at(ledger, place.at, place.w, place.v, on);
    }
}
