// Books that only grow, between a book's moves and the planner of one person's facts: the moves as tables, the wanted facts, and the requests of the
// facts that a way adds.

#![tactic(auto)]

ghost use Rattle.std.specs.Prelude.{◌≡◌, ◌*◌, ◌<◌, length, take};
ghost use Rattle.widths.specs.Inner.Widths.{level_size, terms_size, draft_size};
ghost use Rattle.frames.specs.Book.{contents_of};
ghost use Rattle.reach.specs.Inner.Growing.{Growing};
ghost use Rattle.level.specs.Inner.Moves.{Fine, Sound, moves_in};
ghost use Rattle.level.specs.Inner.Notes.{asks};
ghost use Rattle.flags.specs.Inner.Flags.{FlagsWritten, SmallWants};
ghost use Rattle.own.specs.Inner.Entered.{term_of, TermsEntered, Fresh, Entered};
ghost use Rattle.own.specs.Inner.Wanted.{wants_value, wanted_at};
ghost use Rattle.own.specs.Inner.Requests.{requests_of, Ready};
ghost use Rattle.grow.specs.Inner.Tables.{is_way, count_of};
ghost use Rattle.own.specs.Inner.Found.{OwnMoves, OwnFound};

use facts::Attr;
use frames::{Book, Query};
use level::Move;
use widths::{IDLE_AT, LEVEL_SIZE, MOVE_SIZE, MOVES_SIZE, TERMS_SIZE, VALUES_SIZE};

// ---------------------------------------------------------------- the moves as tables

// Term `j` of a move; where it has no such term, one that asks nothing.
// Kept: that one is the number `IDLE_AT`, no `None`: `grow::grow`, which docs/PROMISES.md names, takes the terms as numbers.
// Kept: `Fine` and `Sound` of the moves as clauses, as in `level`: `move_from` of specs/ makes a move of any numbers of a flat list.
fn term_of(m: Move, j: usize) -> u16
    requires { Fine m × (j < 8) }
    ensures { result ≡ term_of m j }
{
    if j < m.n { m.terms[j] } else { IDLE_AT as u16 }
}

// Writes the eight terms of a move's fact.
fn enter_terms(m: Move, ts: &mut [u16])
    requires { Fine m × (length ts.old ≡ terms_size) }
    ensures { TermsEntered ts.old m ts.new }
{
    let first = 8 * m.fact;
    for j in 0..8 {
        ts[first + j] = term_of(m, j);
    }
}

// Enters all moves: the facts that they add in `us`, each with the number of its move in `by` and that move's terms in `ts`.
// Kept: `us` and `ts` are no row of records, since docs/PROMISES.md names `grow::grow`, which takes them as two lists; and `by` is no
// list of `Option`: which facts have a move is said in `us` already.
fn fill_tables(ms: &[u16], us: &mut [bool], ts: &mut [u16], by: &mut [u16])
    requires { Sound (moves_in ms.now) × Fresh us.old ts.old by.old }
    ensures { Entered (moves_in ms.now) (moves_in ms.now).count us.new ts.new by.new }
{
    for k in 0..ms.len() / MOVE_SIZE {
        let m = level::move_at(ms, k);
        let f = m.fact;
        enter_terms(m, ts);
        us[f] = true;
        by[f] = k as u16;
    }
}

// ---------------------------------------------------------------- the wanted facts

// Whether some named set of attribute `a` has the value `v`.
fn wants_value(q: &Query, a: Attr, v: u8) -> bool
    requires { SmallWants q.now }
    ensures { result ≡ wants_value q.now a.0 v }
{
    q.wants[..usize::from(q.q)]
        .iter()
        .any(|w| w.attr == a && sets::has(w.set, v))
}

// Whether the fact `f` of the query's person is wanted.
fn is_wanted(q: &Query, f: u8) -> bool
    requires { SmallWants q.now }
    ensures { result ≡ wanted_at q.now f }
{
    let values = VALUES_SIZE as u8;
    if f < values {
        wants_value(q, Attr(f / 16), f % 16)
    } else {
        sets::has(q.crews, f - values)
    }
}

// Writes the flags of the wanted facts.
fn wanted(q: &Query, w: &mut [bool])
    requires { SmallWants q.now × (length w.old ≡ level_size) }
    ensures { FlagsWritten w.old 0 (wanted_at q.now) level_size w.new }
{
    flags::write_flags(LEVEL_SIZE as u8, w, 0, |f, _| is_wanted(q, f));
}

// ---------------------------------------------------------------- the requests

// Writes the requests of the first `n` facts of `order`, each by its move.
// Kept: `n` beside `order`, as `Ready` of specs/Inner/Requests and the answer of `grow::grow` have them.
fn write_requests(ms: &[u16], by: &[u16], order: &[u8], n: usize, person: u8, up: &mut [u8])
    requires { Ready (moves_in ms.now) by.now order.now n (length up.old) }
    ensures { asks up.new 0 n ≡ requests_of (moves_in ms.now) by.now person (take n order.now) }
{
    for (i, f) in order[..n].iter().enumerate() {
        let k = usize::from(by[usize::from(*f)]);
        level::note(level::move_at(ms, k), person, i, up);
    }
}

// ---------------------------------------------------------------- the search

// With the moves that add to the person: a way from the starting facts to the wanted ones, as requests in the front of `up`, or that there is none.
fn find_by(b: &Book, adds: &[u16], up: &mut [u8]) -> Option<usize>
    requires { Growing (contents_of b.now) × (OwnMoves b.now.rules b.now.query.roles (moves_in adds.now) × (length up.old ≡ draft_size)) }
    ensures { OwnFound (contents_of b.now) up.new (is_way result) (count_of result) }
{
    let crews = b.sizes.crews;
    let mut us = [false; LEVEL_SIZE];
    let mut ts = [IDLE_AT as u16; TERMS_SIZE];
    let mut by = [0u16; LEVEL_SIZE];
    let mut x = [false; LEVEL_SIZE];
    let mut w = [false; LEVEL_SIZE];
    let mut order = [0u8; LEVEL_SIZE];
    fill_tables(adds, &mut us, &mut ts, &mut by);
    flags::start_flags(&b.facts, crews, b.query.person, crews, &mut x);
    wanted(&b.query, &mut w);
    let n = grow::grow(&us, &ts, &mut w, &mut x, &mut order)?;
    write_requests(adds, &by, &order, n, b.query.person.0, up);
    Some(n)
}

// The moves out of the accepted rules, then the search among the person's facts.
pub fn find(b: &Book, up: &mut [u8]) -> Option<usize>
    requires { Growing (contents_of b.now) × (length up.old ≡ draft_size) }
    ensures { OwnFound (contents_of b.now) up.new (is_way result) (count_of result) }
{
    let mut buffer = [0u16; MOVES_SIZE];
    let sides = moves::moves_listed(&b.rules, b.query.roles, &mut buffer);
    find_by(b, sides.adds_in(&buffer), up)
}
