// The refusals 3-9 of one line's frame, given what the lines above it tell.

#![tactic(auto)]

ghost use Rattle.std.specs.Prelude.{◌≡◌, ◌&&◌, ◌+◌, ◌-◌, ◌*◌, ◌<◌};
ghost use Rattle.gate.specs.Gate.{fault_number, pair_at, quad_at, misplaced};
ghost use Rattle.gate.specs.Gate.{mislengthed, sizes_verdict, edge_verdict, head_good, asks_value, asks_crew, term_good, term_good_at, rule_good, value_term_at, foreign};
ghost use Rattle.gate.specs.Gate.{rule_verdict, fact_good, fact_verdict, want_good_at, crews_good, query_good, rises_at, query_verdict, fields_verdict, verdict};
ghost use Rattle.quantifiers.specs.Quantifiers.{all_below};
ghost use Rattle.sizes.specs.Sizes.{is_crew};
ghost use Rattle.gate.specs.Inner.Long.{due_length, long_fault};

use sizes::Sizes;

// The kinds of frames: the sizes, an edge between two crews, a rule, a starting fact and the query.
// Kept: numbers, these and the ops, modes and kinds of terms and facts below: `verdict`, `term_good` and `fact_good` of specs/Gate judge any byte.
pub const SIZES: u8 = 1;

pub const EDGE: u8 = 2;

pub const RULE: u8 = 3;

pub const FACT: u8 = 4;

pub const QUERY: u8 = 5;

// What the lines so far tell: whether the sizes stand, whether the query stands, the sizes, and how many rules.
// Kept: `headed` beside `sizes`, not an `Option`: `misplaced` of specs/Gate asks for the one and the verdicts for the other.
#[derive(Clone, Copy)]
pub struct Known {
    pub headed: bool,
    pub asked: bool,
    pub sizes: Sizes,
    pub count: usize,
}

// What is wrong with a line, the refusals 2-9, or with the book whose lines are all good, 16 and 17: each with the table's number.
#[derive(Clone, Copy)]
pub enum Fault {
    Malformed = 2,
    Misplaced = 3,
    Mislengthed = 4,
    Outside = 5,
    NotJunior = 6,
    ForeignTerm = 7,
    TooManyRules = 8,
    NotRising = 9,
    BeyondNot = 16,
    WrongMode = 17,
}

// The table's number of a fault.
pub fn fault_number(f: Fault) -> u8
    ensures { result ≡ fault_number f }
{
    f as u8
}

// The set that two bytes of a frame write.
// Kept: here and in `quad_at`, one call: each is the definition of its name in specs/Gate, which docs/PROMISES.md names.
#[tactic(auto, unfolding(crate::specs::Gate::pair_at))]
pub fn pair_at(x: &[u8], i: usize) -> u32
    requires { i < 65000 }
    ensures { result ≡ pair_at x.now i }
{
    sets::padded_number_at(x, i, 2)
}

// The set that four bytes of a frame write.
#[tactic(auto, unfolding(crate::specs::Gate::quad_at))]
pub fn quad_at(x: &[u8], i: usize) -> u32
    requires { i < 64000 }
    ensures { result ≡ quad_at x.now i }
{
    sets::padded_number_at(x, i, 4)
}

#[tactic(auto, unfolding(crate::specs::Gate::misplaced))]
fn is_misplaced(k: Known, kind: u8) -> bool
    ensures { result ≡ misplaced k kind }
{
    if k.headed {
        k.asked || !sizes::is_between(EDGE, QUERY, kind)
    } else {
        kind != SIZES
    }
}

// The length that a frame's first bytes give: by its kind, with the A, the n or q and the mode as written, each read where it counts.
#[tactic(auto, unfolding(crate::specs::Gate::length_of))]
fn due_length(x: &[u8]) -> usize
    ensures { result ≡ due_length x.now }
{
    match lines::byte_at(x, 0) {
        SIZES => 4 + usize::from(lines::byte_at(x, 3)),
        EDGE => 3,
        RULE => 6 + 3 * usize::from(lines::byte_at(x, 5)),
        FACT => 5,
        _ => {
            let named = 6 + 3 * usize::from(lines::byte_at(x, 5));
            if sizes::is_between(2, 3, lines::byte_at(x, 1)) {
                named + 4
            } else {
                named
            }
        }
    }
}

#[tactic(auto, unfolding(crate::specs::Gate::mislengthed))]
fn is_mislengthed(x: &[u8]) -> bool
    ensures { result ≡ mislengthed x.now }
{
    x.len() != due_length(x)
}

#[tactic(auto, unfolding(crate::specs::Gate::sizes_verdict))]
fn sizes_verdict(x: &[u8]) -> Result<(), Fault>
    ensures { result ≡ sizes_verdict x.now }
{
    if sizes::are_sizes(x) {
        Ok(())
    } else {
        Err(Fault::Outside)
    }
}

fn are_crews(z: Sizes, s: u8, j: u8) -> bool
    ensures { result ≡ (is_crew z s && is_crew z j) }
{
    s < z.crews && j < z.crews
}

#[tactic(auto, unfolding(crate::specs::Gate::edge_verdict))]
fn edge_verdict(z: Sizes, x: &[u8]) -> Result<(), Fault>
    ensures { result ≡ edge_verdict z x.now }
{
    let s = lines::byte_at(x, 1);
    let j = lines::byte_at(x, 2);
    if !are_crews(z, s, j) {
        Err(Fault::Outside)
    } else if j < s {
        Ok(())
    } else {
        Err(Fault::NotJunior)
    }
}

fn is_head(z: Sizes, op: u8, role: u8, a: u8, v: u8, n: u8) -> bool
    ensures { result ≡ head_good z op role a v n }
{
    let holds = sizes::is_between(1, 4, op) && sizes::is_value(z, a, v);
    let joins = sizes::is_between(5, 6, op) && sizes::is_crew_field(z, a, v);
    (holds || joins) && role <= 15 && n <= 8
}

// Whether a term of that kind is about a value: 01, 02, 05 and 81 are.
fn asks_value(kind: u8) -> bool
    ensures { result ≡ asks_value kind }
{
    matches!(kind, 1 | 2 | 5 | 0x81)
}

// Whether a term of that kind is about a crew: 03, 04 and 83 are.
fn asks_crew(kind: u8) -> bool
    ensures { result ≡ asks_crew kind }
{
    matches!(kind, 3 | 4 | 0x83)
}

fn is_term(z: Sizes, kind: u8, a: u8, v: u8) -> bool
    ensures { result ≡ term_good z kind a v }
{
    asks_value(kind) && sizes::is_value(z, a, v) || asks_crew(kind) && sizes::is_crew_field(z, a, v)
}

fn is_term_at(z: Sizes, x: &[u8], j: u8) -> bool
    ensures { result ≡ term_good_at z x.now j }
{
    let i = usize::from(j);
    let kind = lines::byte_at(x, 6 + 3 * i);
    let a = lines::byte_at(x, 7 + 3 * i);
    let v = lines::byte_at(x, 8 + 3 * i);
    is_term(z, kind, a, v)
}

fn are_terms(z: Sizes, x: &[u8], n: u8) -> bool
    ensures { result ≡ all_below (term_good_at z x.now) n }
{
    (0..n).all(|j| is_term_at(z, x, j))
}

#[tactic(auto, unfolding(crate::specs::Gate::rule_good))]
fn is_rule(z: Sizes, x: &[u8]) -> bool
    ensures { result ≡ rule_good z x.now }
{
    let op = lines::byte_at(x, 1);
    let role = lines::byte_at(x, 2);
    let a = lines::byte_at(x, 3);
    let v = lines::byte_at(x, 4);
    let n = lines::byte_at(x, 5);
    is_head(z, op, role, a, v, n) && are_terms(z, x, n)
}

// Whether each term is about a value, not about a crew.
fn are_value_terms(x: &[u8], n: u8) -> bool
    ensures { result ≡ all_below (value_term_at x.now) n }
{
    (0..n).all(|j| {
        let kind = lines::byte_at(x, 6 + 3 * usize::from(j));
        asks_value(kind)
    })
}

#[tactic(auto, unfolding(crate::specs::Gate::foreign))]
fn is_foreign(x: &[u8]) -> bool
    ensures { result ≡ foreign x.now }
{
    let op = lines::byte_at(x, 1);
    let n = lines::byte_at(x, 5);
    op <= 4 && !are_value_terms(x, n)
}

#[tactic(auto, unfolding(crate::specs::Gate::rule_verdict))]
fn rule_verdict(k: Known, x: &[u8]) -> Result<(), Fault>
    ensures { result ≡ rule_verdict k x.now }
{
    if !is_rule(k.sizes, x) {
        return Err(Fault::Outside);
    }
    if is_foreign(x) {
        return Err(Fault::ForeignTerm);
    }
    if 512 <= k.count {
        return Err(Fault::TooManyRules);
    }
    Ok(())
}

fn is_fact(z: Sizes, k: u8, s: u8, a: u8, v: u8) -> bool
    ensures { result ≡ fact_good z k s a v }
{
    match k {
        1 => s < z.persons && sizes::is_value(z, a, v),
        2 => s < z.crews && sizes::is_value(z, a, v),
        3 => s < z.persons && sizes::is_crew_field(z, a, v),
        _ => false,
    }
}

#[tactic(auto, unfolding(crate::specs::Gate::fact_verdict))]
fn fact_verdict(z: Sizes, x: &[u8]) -> Result<(), Fault>
    ensures { result ≡ fact_verdict z x.now }
{
    let k = lines::byte_at(x, 1);
    let s = lines::byte_at(x, 2);
    let a = lines::byte_at(x, 3);
    let v = lines::byte_at(x, 4);
    if is_fact(z, k, s, a, v) {
        Ok(())
    } else {
        Err(Fault::Outside)
    }
}

// Whether a query's attribute and set number j are within the sizes.
fn is_want_at(z: Sizes, x: &[u8], j: u8) -> bool
    ensures { result ≡ want_good_at z x.now j }
{
    let i = usize::from(j);
    let a = lines::byte_at(x, 6 + 3 * i);
    a < z.attrs && sets::is_within(pair_at(x, 7 + 3 * i), sizes::values_of(z, a))
}

fn are_wants(z: Sizes, x: &[u8], q: u8) -> bool
    ensures { result ≡ all_below (want_good_at z x.now) q }
{
    (0..q).all(|j| is_want_at(z, x, j))
}

fn are_listed_crews(z: Sizes, x: &[u8]) -> bool
    ensures { result ≡ crews_good z x.now }
{
    let mode = lines::byte_at(x, 1);
    let q = lines::byte_at(x, 5);
    !sizes::is_between(2, 3, mode) || sets::is_within(quad_at(x, 6 + 3 * usize::from(q)), z.crews)
}

#[tactic(auto, unfolding(crate::specs::Gate::query_good))]
fn is_query(z: Sizes, x: &[u8]) -> bool
    ensures { result ≡ query_good z x.now }
{
    let mode = lines::byte_at(x, 1);
    let person = lines::byte_at(x, 2);
    let q = lines::byte_at(x, 5);
    sizes::is_between(1, 3, mode)
        && person < z.persons
        && q <= 8
        && are_wants(z, x, q)
        && are_listed_crews(z, x)
}

// Whether the query's attributes rise strictly.
fn are_rising(x: &[u8], q: u8) -> bool
    ensures { result ≡ all_below (rises_at x.now) (q - 1) }
{
    (0..q.saturating_sub(1)).all(|j| {
        let at = 6 + 3 * usize::from(j);
        lines::byte_at(x, at) < lines::byte_at(x, at + 3)
    })
}

#[tactic(auto, unfolding(crate::specs::Gate::query_verdict))]
fn query_verdict(z: Sizes, x: &[u8]) -> Result<(), Fault>
    ensures { result ≡ query_verdict z x.now }
{
    if !is_query(z, x) {
        return Err(Fault::Outside);
    }
    let q = lines::byte_at(x, 5);
    if !are_rising(x, q) {
        return Err(Fault::NotRising);
    }
    Ok(())
}

// The lowest of 5-9 that falls on a frame whose kind and length are right.
#[tactic(auto, unfolding(crate::specs::Gate::fields_verdict))]
fn fields_verdict(k: Known, x: &[u8]) -> Result<(), Fault>
    ensures { result ≡ fields_verdict k x.now }
{
    match lines::byte_at(x, 0) {
        SIZES => sizes_verdict(x),
        EDGE => edge_verdict(k.sizes, x),
        RULE => rule_verdict(k, x),
        FACT => fact_verdict(k.sizes, x),
        _ => query_verdict(k.sizes, x),
    }
}

// The lowest of 3-9 that falls on a frame, or none.
#[tactic(auto, unfolding(crate::specs::Gate::verdict))]
pub fn judge_frame(k: Known, x: &[u8]) -> Result<(), Fault>
    ensures { result ≡ verdict k x.now }
{
    if is_misplaced(k, lines::byte_at(x, 0)) {
        return Err(Fault::Misplaced);
    }
    if is_mislengthed(x) {
        return Err(Fault::Mislengthed);
    }
    fields_verdict(k, x)
}

// The lowest refusal of a frame of n bytes, over 64, by its first 64 alone: it is misplaced, or has another length than its kind's, or has
// it by an A, n or q over 8.
#[tactic(auto, unfolding(crate::specs::Inner::Long::long_fault))]
pub fn long_fault(k: Known, x: &[u8], n: usize) -> Fault
    ensures { result ≡ long_fault k x.now n }
{
    if is_misplaced(k, lines::byte_at(x, 0)) {
        Fault::Misplaced
    } else if n != due_length(x) {
        Fault::Mislengthed
    } else {
        Fault::Outside
    }
}
