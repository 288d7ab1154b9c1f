// Inheritance: what a crew and a person effectively hold, and in which crews a person effectively is.

#![tactic(auto)]

ghost use Rattle.std.specs.Prelude.{◌≡◌, ◌<◌, length};
ghost use Rattle.facts.specs.Facts.{holds};
ghost use Rattle.quantifiers.specs.Quantifiers.{any_from};
ghost use Rattle.inherit.specs.Inheritance.{downward, crew_holds, some_crew, person_in, person_holds};
ghost use Rattle.inherit.specs.Inner.Search.{sought, junior_passes, Tried, Leaves};

use facts::{Attr, Crew, Fact, Person};

// What is looked for at a crew and below it: a value that it directly holds, that value or a higher one, or the crew named.
// Kept: an enum and no closure: it goes down a recursion of two functions, whose contracts say `sought` of it (specs/Inner/Search).
#[derive(Clone, Copy)]
pub enum Sought {
    Value(Attr, u8),
    AtLeast(Attr, u8),
    Named(Crew),
}

// Whether crew c itself is what is looked for.
#[tactic(auto, unfolding(crate::specs::Inner::Search::sought))]
fn is_sought(ledger: &[u8], c: u8, w: Sought) -> bool
    ensures { result ≡ sought (holds ledger.now) w c }
{
    match w {
        Sought::Value(a, v) => facts::fact_holds(ledger, Fact::CrewHolds(Crew(c), a, v)),
        Sought::AtLeast(a, v) => facts::holds_from(ledger, Fact::CrewHolds(Crew(c), a, v)),
        Sought::Named(x) => Crew(c) == x,
    }
}

// Looks at crew c and below it. `None` where what is looked for is found there, which ends the search; else the set of crews tried so far:
// neither they nor crews below them are what is looked for.
// Kept: the juniors as a slice whose length a clause says, here and in every function that takes them, not as `&[u32; 32]`, and so no struct
// of ledger and juniors: functions that docs/ name (`person_holds`, `rules::first_permitting` and others) may ask no more of a caller.
#[cycle(crew_tried_juniors_tried)]
fn crew_tried(ledger: &[u8], juniors: &[u32], c: u8, w: Sought, seen: u32) -> Option<u32>
    requires c_bound { (c < 32) × (length juniors.now ≡ 32) }
    requires tried { Tried juniors.now (sought (holds ledger.now) w) seen }
    ensures { Leaves juniors.now (sought (holds ledger.now) w) (downward juniors.now (sought (holds ledger.now) w) c) result }
{
    if is_sought(ledger, c, w) {
        return None;
    }
    let tried = juniors_tried(ledger, juniors, c, w, seen)?;
    Some(sets::with(tried, c, true))
}

// Looks at the direct juniors of crew c and below them; a junior's number is lower. A junior already tried is not looked at again,
// so each crew is looked at once, however many edges there are.
#[cycle(crew_tried_juniors_tried)]
fn juniors_tried(ledger: &[u8], juniors: &[u32], c: u8, w: Sought, seen: u32) -> Option<u32>
    requires c_bound { (c < 32) × (length juniors.now ≡ 32) }
    requires tried { Tried juniors.now (sought (holds ledger.now) w) seen }
    ensures { Leaves juniors.now (sought (holds ledger.now) w) (junior_passes juniors.now (sought (holds ledger.now) w) c c) result }
{
    let mut tried = seen;
    for j in 0..c {
        let direct = sets::has(juniors[usize::from(c)], j);
        if direct && !sets::has(tried, j) {
            tried = crew_tried(ledger, juniors, j, w, tried)?;
        }
    }
    Some(tried)
}

// Whether some crew that the person is directly in is what is looked for, or a crew below it is.
fn person_reaches(ledger: &[u8], juniors: &[u32], p: Person, w: Sought) -> bool
    requires { length juniors.now ≡ 32 }
    ensures { result ≡ some_crew (holds ledger.now) p (downward juniors.now (sought (holds ledger.now) w)) }
{
    let mut seen: u32 = 0;
    for d in 0..32 {
        if facts::fact_holds(ledger, Fact::Member(p, Crew(d))) {
            let Some(tried) = crew_tried(ledger, juniors, d, w, seen) else {
                return true;
            };
            seen = tried;
        }
    }
    false
}

// Whether crew c effectively holds value v of attribute a.
#[tactic(auto, using(crate::proofs::InheritanceLaws::tried_none), unfolding(crate::specs::Inheritance::crew_holds, crate::specs::Inner::Search::sought))]
pub fn crew_holds(ledger: &[u8], juniors: &[u32], c: Crew, a: Attr, v: u8) -> bool
    requires { (c.0 < 32) × (length juniors.now ≡ 32) }
    ensures { result ≡ crew_holds juniors.now (holds ledger.now) a v c.0 }
{
    crew_tried(ledger, juniors, c.0, Sought::Value(a, v), 0).is_none()
}

// Whether crew c effectively holds value v of attribute a or a higher one: one search for all of them.
// Kept: beside `crew_holds`, as `person_holds_at_least` beside `person_holds`: docs/PROMISES.md names them, and each is one call of what they
// share (`crew_tried`, `person_reaches` over `Sought`).
#[tactic(auto, using(crate::proofs::InheritanceLaws::tried_none))]
pub fn crew_holds_at_least(ledger: &[u8], juniors: &[u32], c: Crew, a: Attr, v: u8) -> bool
    requires { (c.0 < 32) × (length juniors.now ≡ 32) }
    ensures { result ≡ any_from (λ w. crew_holds juniors.now (holds ledger.now) a w c.0) v 16 }
{
    crew_tried(ledger, juniors, c.0, Sought::AtLeast(a, v), 0).is_none()
}

// Whether person p is effectively in crew c.
#[tactic(auto, unfolding(crate::specs::Inheritance::person_in, crate::specs::Inner::Search::sought))]
pub fn person_in(ledger: &[u8], juniors: &[u32], p: Person, c: Crew) -> bool
    requires { length juniors.now ≡ 32 }
    ensures { result ≡ person_in juniors.now (holds ledger.now) p c.0 }
{
    person_reaches(ledger, juniors, p, Sought::Named(c))
}

// Whether person p effectively holds value v of attribute a.
#[tactic(auto, unfolding(crate::specs::Inheritance::person_holds, crate::specs::Inheritance::crew_holds, crate::specs::Inner::Search::sought))]
pub fn person_holds(ledger: &[u8], juniors: &[u32], p: Person, a: Attr, v: u8) -> bool
    requires { length juniors.now ≡ 32 }
    ensures { result ≡ person_holds juniors.now (holds ledger.now) p a v }
{
    facts::fact_holds(ledger, Fact::Holds(p, a, v))
        || person_reaches(ledger, juniors, p, Sought::Value(a, v))
}

// Whether person p effectively holds value v of attribute a or a higher one: one search for all of them.
pub fn person_holds_at_least(ledger: &[u8], juniors: &[u32], p: Person, a: Attr, v: u8) -> bool
    requires { length juniors.now ≡ 32 }
    ensures { result ≡ any_from (person_holds juniors.now (holds ledger.now) p a) v 16 }
{
    facts::holds_from(ledger, Fact::Holds(p, a, v))
        || person_reaches(ledger, juniors, p, Sought::AtLeast(a, v))
}
