// What a request says, whether it is well formed (refusal 12), and whether a ledger suits the book's sizes (refusal 11).

#![tactic(auto)]

ghost use Rattle.std.specs.Prelude.{◌≡◌, ◌+◌, ◌*◌, ◌<◌, ◌≤◌, length};
ghost use Rattle.facts.specs.Facts.{ledger_size};
ghost use Rattle.quantifiers.specs.Quantifiers.{all_below};
ghost use Rattle.requests.specs.Requests.{adds, aimed, request_of, fields_good, well_formed};
ghost use Rattle.requests.specs.Suitable.{room_of, value_set_good, member_set_good, suitable};

use facts::{Attr, CREWS_AT, Crew, Fact, LEDGER_SIZE, MEMBERS_AT, Person, Role};

// A request: its op, the administrator's role, and the fact that it sets or clears.
// Kept: the op is a number and no enum: `request_of` of specs/Requests gives it as it is written, whatever it is.
#[derive(Clone, Copy)]
pub struct Request {
    pub op: u8,
    pub role: Role,
    pub fact: Fact,
}

// How many sets of values a ledger has for persons, for crews, and how many sets of crews.
const PERSON_SETS: usize = 512;

const CREW_SETS: usize = 256;

const MEMBER_SETS: usize = 64;

// Whether an op sets its fact; the others clear it.
pub fn is_adding(op: u8) -> bool
    ensures { result ≡ adds op }
{
    op % 2 == 1
}

// The fact that an op with its subject, a and v aims at.
// Kept: beside `frames::fact_of`, as `are_fields` beside `gate::is_fact`: by an op, two for each kind of fact, not by the kind; each is the
// definition of its name.
#[tactic(auto, unfolding(crate::specs::Requests::aimed))]
fn aimed_fact(op: u8, s: u8, a: u8, v: u8) -> Fact
    ensures { result ≡ aimed op s a v }
{
    match op {
        0..=2 => Fact::Holds(Person(s), Attr(a), v),
        3..=4 => Fact::CrewHolds(Crew(s), Attr(a), v),
        _ => Fact::Member(Person(s), Crew(a)),
    }
}

// The request that five bytes write.
#[tactic(auto, unfolding(crate::specs::Requests::request_of, lines::specs::Digits::byte_at))]
pub fn request_of(q: &[u8]) -> Request
    ensures { result ≡ request_of q.now }
{
    let op = lines::byte_at(q, 0);
    Request {
        op,
        role: Role(lines::byte_at(q, 1)),
        fact: aimed_fact(
            op,
            lines::byte_at(q, 2),
            lines::byte_at(q, 3),
            lines::byte_at(q, 4),
        ),
    }
}

// Whether a request's fields are in their ranges.
#[tactic(auto, unfolding(crate::specs::Requests::fields_good))]
fn are_fields(z: sizes::Sizes, op: u8, role: u8, s: u8, a: u8, v: u8) -> bool
    ensures { result ≡ fields_good z op role s a v }
{
    let in_range = match op {
        1..=2 => s < z.persons && sizes::is_value(z, a, v),
        3..=4 => s < z.crews && sizes::is_value(z, a, v),
        5..=6 => s < z.persons && sizes::is_crew_field(z, a, v),
        _ => false,
    };
    in_range && role <= 15
}

// Whether bytes are a well-formed request. Refusal 12 falls where they are not.
#[tactic(auto, unfolding(crate::specs::Requests::well_formed))]
pub fn is_request(z: sizes::Sizes, q: &[u8]) -> bool
    ensures { result ≡ well_formed z q.now }
{
    match q {
        [op, role, s, a, v] => are_fields(z, *op, *role, *s, *a, *v),
        _ => false,
    }
}

// How many values attribute a may hold in a ledger.
#[tactic(auto, unfolding(crate::specs::Suitable::room_of))]
fn room_of(z: sizes::Sizes, a: u8) -> u8
    ensures { result ≡ room_of z a }
{
    if a < z.attrs {
        sizes::values_of(z, a)
    } else {
        0
    }
}

// Whether set i of the two-byte sets that begin at `start` is within the sizes; the book has so many `subjects`.
#[tactic(auto, unfolding(crate::specs::Suitable::value_set_good))]
fn is_value_set(z: sizes::Sizes, ledger: &[u8], start: usize, subjects: u8, i: usize) -> bool
    requires { (i < 512) × (start + 2 * i + 2 ≤ length ledger.now) }
    ensures { result ≡ value_set_good z ledger.now start subjects i }
{
    let set = sets::number_at(ledger, start + 2 * i, 2);
    let is_subject = i / 8 < usize::from(subjects);
    let room = if is_subject {
        room_of(z, (i % 8) as u8)
    } else {
        0
    };
    sets::is_within(set, room)
}

// Whether the first `count` of those sets are within the sizes.
fn are_value_sets(z: sizes::Sizes, ledger: &[u8], start: usize, subjects: u8, count: usize) -> bool
    requires { (count ≤ 512) × (start + 2 * count ≤ length ledger.now) }
    ensures { result ≡ all_below (value_set_good z ledger.now start subjects) count }
{
    (0..count).all(|i| is_value_set(z, ledger, start, subjects, i))
}

// Whether the crews of person p are within the sizes.
// Kept: beside `is_value_set`, of one shape: the place, the width and the room of the set differ, which is all of it.
#[tactic(auto, unfolding(crate::specs::Suitable::member_set_good))]
fn is_member_set(z: sizes::Sizes, ledger: &[u8], p: usize) -> bool
    requires { (p < 64) × (length ledger.now ≡ ledger_size) }
    ensures { result ≡ member_set_good z ledger.now p }
{
    let set = sets::number_at(ledger, MEMBERS_AT + 4 * p, 4);
    let is_person = p < usize::from(z.persons);
    let room = if is_person { z.crews } else { 0 };
    sets::is_within(set, room)
}

// Whether the crews of every person are.
fn are_member_sets(z: sizes::Sizes, ledger: &[u8]) -> bool
    requires { length ledger.now ≡ ledger_size }
    ensures { result ≡ all_below (member_set_good z ledger.now) 64 }
{
    (0..MEMBER_SETS).all(|p| is_member_set(z, ledger, p))
}

// Whether a ledger suits the sizes. Refusal 11 falls where it does not.
#[tactic(auto, unfolding(crate::specs::Suitable::suitable))]
pub fn is_suitable(z: sizes::Sizes, ledger: &[u8]) -> bool
    ensures { result ≡ suitable z ledger.now }
{
    ledger.len() == LEDGER_SIZE
        && are_value_sets(z, ledger, 0, z.persons, PERSON_SETS)
        && are_value_sets(z, ledger, CREWS_AT, z.crews, CREW_SETS)
        && are_member_sets(z, ledger)
}
