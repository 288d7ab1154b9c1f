// One level of the planner: the facts of one crew, or of the query's person, the moves that rules permit on them, and the rounds that settle
// the level.
// Kept: kinds, ops and places are numbers, as in `frames::Term`; the bounds of places and the lengths of flags and of moves stand in clauses, here and in
// the planner's other crates, since the functions that docs/PROMISES.md names are lent slices, and take places as numbers.

#![tactic(auto)]

ghost use Rattle.std.specs.Prelude.{◌≡◌, ℕ, Bool, ◌+◌, ◌*◌, ◌≤◌, ◌<◌, length};
ghost use Rattle.level.specs.Inner.Moves.{flags_met, flags_with, places_of, place_of, Fine, Sound, ask_of, move_from, move_at, moves_in};
ghost use Rattle.level.specs.Inner.Chosen.{chosen_in, Numbers, MovePut};
ghost use Rattle.level.specs.Inner.Terms.{code_of, GoodRule, MoveOf};
ghost use Rattle.level.specs.Inner.Notes.{Noted};
ghost use Rattle.level.specs.Inner.Sweep.{fires_in, Next, TurnAt, Ready, Closed};
ghost use Rattle.level.specs.Inner.BackSweep.{backs_in, ReadyBack, ClosedBack};
ghost use Rattle.level.specs.Inner.Settle.{none_fired, new_work, SameDraft, RoundReady, Rounded, Result, found_of, ups_of, at_of};
ghost use Rattle.widths.specs.Inner.Widths.{level_size, flags_size, table_size, moves_size, move_size};
ghost use Rattle.quantifiers.specs.Quantifiers.{all};

use frames::Rule;
use widths::{FLAGS_SIZE, HIGHER_AT, LEVEL_SIZE, MOVE_SIZE, VALUES_SIZE};

// A rule as a move: the fact that it adds or deletes, the bytes of its request, and the places of its terms.
// Kept: an array with its count beside it, as `frames::Rule`.
#[derive(Clone, Copy)]
pub struct Move {
    pub fact: usize,
    pub n: usize,
    pub op: u16,
    pub role: u16,
    pub a: u16,
    pub v: u16,
    pub terms: [u16; 8],
}

// ---------------------------------------------------------------- from rules to moves

// The place of what a term asks.
#[tactic(auto, unfolding(crate::specs::Inner::Terms::code_of))]
pub fn place(kind: u8, a: u8, v: u8) -> u16
    ensures { result ≡ code_of kind a v }
{
    let x = u16::from(a);
    let y = u16::from(v);
    match kind {
        1 => 16 * x + y,
        2 | 0x81 => LEVEL_SIZE as u16 + (16 * x + y),
        5 => HIGHER_AT as u16 + (16 * x + y),
        3 => VALUES_SIZE as u16 + x,
        _ => LEVEL_SIZE as u16 + (VALUES_SIZE as u16 + x),
    }
}

// The fact that a request's op, a and v name.
#[tactic(auto, unfolding(crate::specs::Inner::Moves::place_of))]
pub fn aim(op: u8, a: u8, v: u8) -> usize
    ensures { result ≡ place_of op a v }
{
    if op < 5 {
        16 * usize::from(a) + usize::from(v)
    } else {
        VALUES_SIZE + usize::from(a)
    }
}

// The move of a rule.
pub fn move_of(r: &Rule) -> Move
    requires { GoodRule r.now }
    ensures { MoveOf r.now result }
{
    let mut terms = [0; 8];
    for (j, t) in r.terms[..usize::from(r.n)].iter().enumerate() {
        terms[j] = place(t.kind, t.a, t.v);
    }
    Move {
        fact: aim(r.op, r.a, r.v),
        n: usize::from(r.n),
        op: u16::from(r.op),
        role: u16::from(r.role.0),
        a: u16::from(r.a),
        v: u16::from(r.v),
        terms,
    }
}

// A move as 14 numbers.
// Kept: a move as 14 numbers of a flat list, as `moves_in` and `move_from` of specs/Inner/Moves read it, and as the functions that
// docs/PROMISES.md names are lent it.
// Kept: `Fine` of a move and `Sound` of a list as clauses, here and in `own` and `persons`: `move_from` of specs/ makes a move of any numbers, and
// `close` and `persons::settle`, which docs/ name, are lent the flat list.
fn numbers_of(m: Move) -> [u16; MOVE_SIZE]
    requires { Fine m }
    ensures { Numbers m result }
{
    let mut row = [0; MOVE_SIZE];
    row[..6].copy_from_slice(&[m.fact as u16, m.n as u16, m.op, m.role, m.a, m.v]);
    row[6..].copy_from_slice(&m.terms);
    row
}

// Writes move `k` of a list.
pub fn put_move(m: Move, k: usize, ms: &mut [u16])
    requires { Fine m × ((k < 512) × (length ms.old ≡ moves_size)) }
    ensures { MovePut ms.old k m ms.new }
{
    let at = MOVE_SIZE * k;
    ms[at..at + MOVE_SIZE].copy_from_slice(&numbers_of(m));
}

// Move `i` of a list.
pub fn move_at(ms: &[u16], i: usize) -> Move
    requires { (i < 512) × (move_size * i + move_size ≤ length ms.now) }
    ensures { result ≡ move_at (moves_in ms.now) i }
{
    let at = MOVE_SIZE * i;
    let mut terms = [0; 8];
    terms.copy_from_slice(&ms[at + 6..at + MOVE_SIZE]);
    Move {
        fact: usize::from(ms[at]),
        n: usize::from(ms[at + 1]),
        op: ms[at + 2],
        role: ms[at + 3],
        a: ms[at + 4],
        v: ms[at + 5],
        terms,
    }
}

// Whether the rule has one of two ops and one of the roles.
#[tactic(auto, unfolding(crate::specs::Inner::Chosen::chosen_in))]
pub fn chosen(r: &Rule, one: u8, two: u8, roles: u32) -> bool
    ensures { result ≡ chosen_in one two roles r.now }
{
    (r.op == one || r.op == two) && sets::has(roles, r.role.0)
}

// ---------------------------------------------------------------- a move tested, and its request

// Whether `shows` answers yes at the place of each term of the move at the place `at` of the numbers. Most moves that are tried do not
// fire, so the tests read a move's numbers where they stand: no move is made for them. The closure has a clause, as `shows` need not answer
// at places past the flags.
fn do_all_show<F: Fn(usize) -> bool>(ms: &[u16], at: usize, shows: F) -> bool
    requires stands { (at + move_size ≤ length ms.now) × Fine (move_from ms.now at) }
    requires callable { (k : ℕ) → k < flags_size → F.pre shows k }
    ensures { (p : ℕ → Bool) → ((k : ℕ) (b : Bool) → F.post shows k b → b ≡ p k) → result ≡ all p (places_of (move_from ms.now at)) }
{
    let n = usize::from(ms[at + 1]);
    ms[at + 6..at + 6 + n].iter().all(
        |k|
            requires { F.pre shows k.now }
        { shows(usize::from(*k)) },
    )
}

// Whether all terms of the move at the place `at` of the numbers hold of the flags `x`.
#[tactic(auto, unfolding(crate::specs::Inner::Moves::flags_met))]
pub fn meets(ms: &[u16], at: usize, x: &[bool]) -> bool
    requires { (at + move_size ≤ length ms.now) × (Fine (move_from ms.now at) × (length x.now ≡ flags_size)) }
    ensures { result ≡ flags_met (move_from ms.now at) x.now }
{
    do_all_show(ms, at, |k| x[k])
}

// Writes the request of a move, as request `k`.
// Kept: byte by byte, no `copy_from_slice` of the five: for a page, which gives no requests, the compiler leaves these writes and the clearing of
// their buffer out, but not with that one; `depot_page` took up to 18% more (docs/PERFORMANCE.md, The code in today's forms).
pub fn note(m: Move, subject: u8, k: usize, out: &mut [u8])
    requires { Fine m × (5 * k + 5 ≤ length out.old) }
    ensures { Noted out.old k (ask_of subject m) out.new }
{
    let at = 5 * k;
    out[at] = m.op as u8;
    out[at + 1] = m.role as u8;
    out[at + 2] = subject;
    out[at + 3] = m.a as u8;
    out[at + 4] = m.v as u8;
}

// ---------------------------------------------------------------- the two sweeps

// Whether move `i` adds a fact that is allowed and not there yet, and its terms hold.
pub fn fires(ms: &[u16], i: usize, allowed: &[bool], x: &[bool]) -> bool
    requires sound { Sound (moves_in ms.now) × (i < (moves_in ms.now).count) }
    requires x_len { (length x.now ≡ flags_size) × (length allowed.now ≡ level_size) }
    ensures { result ≡ fires_in (move_at (moves_in ms.now) i) allowed.now x.now }
{
    let at = MOVE_SIZE * i;
    let f = usize::from(ms[at]);
    !x[f] && allowed[f] && meets(ms, at, x)
}

// The place after `i` in a round of `n`.
pub fn next(i: usize, n: usize) -> usize
    requires { i < n }
    ensures { Next i n result }
{
    if i + 1 == n { 0 } else { i + 1 }
}

// Where a sweep stands: how many of the names it has tried, the move that is next, and how many before that move are quiet.
#[derive(Clone, Copy)]
pub struct Turn {
    pub tried: usize,
    pub i: usize,
    pub quiet: usize,
}

// Where the sweep goes on: at the move that the next name gives, none quiet before it; or, when no name is left, where it stands.
// A name that no move has ends the names.
fn turn_at(names: &[u16], turn: Turn, count: usize) -> Turn
    requires { (length names.now ≡ level_size) × ((turn.tried ≤ level_size) × (turn.i < count)) }
    ensures { TurnAt count turn.tried turn.i turn.quiet result.tried result.i result.quiet }
{
    let Some(name) = names.get(turn.tried) else {
        return turn;
    };
    let k = usize::from(*name);
    if k < count {
        Turn {
            tried: turn.tried + 1,
            i: k,
            quiet: 0,
        }
    } else {
        Turn {
            tried: LEVEL_SIZE,
            ..turn
        }
    }
}

// The turn before the first.
const FIRST: Turn = Turn {
    tried: 0,
    i: 0,
    quiet: 0,
};

// What a sweep goes over: the moves of one side as a flat list of numbers, the subject that their requests name, and the table of what its
// facts show.
// Kept: here, in `Level` and `Draft` and in `search::Parts` plain structs, with clauses on their fields: `Closed`, `RoundReady` and `ScannedOf`
// speak of the fields one by one, and keep their meaning (docs/DECISIONS.md, 119).
#[derive(Clone, Copy)]
pub struct Sweep<'a> {
    pub moves: &'a [u16],
    pub subject: u8,
    pub table: &'a [bool],
}

// Adds to `x` what the moves can add within `allowed`, until nothing is left, and notes each request in `out` from request `start` on. Returns
// how many. `added` has the numbers of the moves that fired last time, in their order (512: none). They are tried first, as most fire again, and
// those that fire now are written over the front; what stands behind them stays, for a later level that goes further. A wrong name costs one
// trial and no more.
// Kept: beside `back`, as `fires` beside `backs`: the test, the side that the requests are written from and the promise differ (`Closed`,
// `ClosedBack`), and one function with all of that as parameters would be no plainer.
// Kept: 512 for "no move" in `added` and `deleted`, not an `Option`: `turn_at` asks only whether a number is below the count, which covers it.
pub fn close(
    sweep: &Sweep,
    added: &mut [u16],
    allowed: &[bool],
    x: &mut [bool],
    start: usize,
    out: &mut [u8],
) -> usize
    requires sound { Sound (moves_in sweep.now.moves.now) }
    requires ready { Ready sweep.now.table.now allowed.now x.old (length out.old) start }
    requires added_len { length added.old ≡ level_size }
    ensures { Closed (moves_in sweep.now.moves.now) sweep.now.subject sweep.now.table.now allowed.now
        x.old x.new start out.old out.new result }
{
    let count = sweep.moves.len() / MOVE_SIZE;
    let mut n: usize = 0;
    let mut turn = FIRST;
    // Kept: no loop over an index. A turn may set `turn.i` back, and what it adds makes the count of quiet moves begin anew.
    while turn.quiet < count {
        turn = turn_at(added, turn, count);
        if fires(sweep.moves, turn.i, allowed, x) {
            let m = move_at(sweep.moves, turn.i);
            build::put_whole(sweep.table, m.fact, x);
            note(m, sweep.subject, start + n, out);
            added[n] = turn.i as u16;
            n += 1;
            turn.quiet = 0;
        } else {
            turn.quiet += 1;
        }
        turn.i = next(turn.i, count);
    }
    n
}

// Whether all terms of the move at the place `at` of the numbers hold of `x` with the move's own fact put in.
pub fn meets_with(ms: &[u16], at: usize, table: &[bool], x: &[bool]) -> bool
    requires move_size_in_bounds { (at + move_size ≤ length ms.now) × Fine (move_from ms.now at) }
    requires x_len { (length x.now ≡ flags_size) × (length table.now ≡ table_size) }
    ensures { result ≡ flags_with (move_from ms.now at) table.now x.now }
{
    let f = usize::from(ms[at]);
    do_all_show(ms, at, |k| shown::lit(table, f, k, x))
}

// Whether move `i` deletes a fact of `x` that is not in `y`, and its terms hold of `y` with that fact.
pub fn backs(ms: &[u16], i: usize, table: &[bool], x: &[bool], y: &[bool]) -> bool
    requires sound { Sound (moves_in ms.now) × (i < (moves_in ms.now).count) }
    requires x_len { (length x.now ≡ flags_size) × ((length y.now ≡ flags_size) × (length table.now ≡ table_size)) }
    ensures { result ≡ backs_in (move_at (moves_in ms.now) i) table.now x.now y.now }
{
    let at = MOVE_SIZE * i;
    let f = usize::from(ms[at]);
    !y[f] && x[f] && meets_with(ms, at, table, y)
}

// Puts back into `y` what of `x` the moves can delete, until nothing is left, and notes each request in `out`, downwards from request `end`. Returns
// where the notes begin.
// `deleted` has the numbers of the moves whose facts were put back last time, as `added` has for `close`.
pub fn back(
    sweep: &Sweep,
    deleted: &mut [u16],
    bad: &[bool],
    x: &[bool],
    y: &mut [bool],
    end: usize,
    out: &mut [u8],
) -> usize
    requires sound { Sound (moves_in sweep.now.moves.now) }
    requires ready_back { ReadyBack sweep.now.table.now bad.now x.now y.old (length out.old) end }
    requires deleted_len { length deleted.old ≡ level_size }
    ensures { ClosedBack (moves_in sweep.now.moves.now) sweep.now.subject sweep.now.table.now bad.now
        x.now y.new end out.old out.new result }
{
    let count = sweep.moves.len() / MOVE_SIZE;
    let mut at = end;
    let mut turn = FIRST;
    // Kept: no loop over an index. A turn may set `turn.i` back, and what it puts back makes the count of quiet moves begin anew.
    while turn.quiet < count {
        turn = turn_at(deleted, turn, count);
        if backs(sweep.moves, turn.i, sweep.table, x, y) {
            let m = move_at(sweep.moves, turn.i);
            build::put_whole(sweep.table, m.fact, y);
            deleted[end - at] = turn.i as u16;
            at -= 1;
            note(m, sweep.subject, at, out);
            turn.quiet = 0;
        } else {
            turn.quiet += 1;
        }
        turn.i = next(turn.i, count);
    }
    at
}

// ---------------------------------------------------------------- the rounds

// How many requests were added, and where the deletions begin.
#[derive(Clone, Copy)]
pub struct Ends {
    pub ups: usize,
    pub at: usize,
}

// The moves of the two sides of a level, additions and deletions, each as a flat list of numbers.
#[derive(Clone, Copy)]
pub struct Sides<'a> {
    pub adds: &'a [u16],
    pub dels: &'a [u16],
}

// A level: its moves, its subject, the table of what its facts show, its forbidden facts, and the flags of its starting facts (`s`).
#[derive(Clone, Copy)]
pub struct Level<'a> {
    pub sides: Sides<'a>,
    pub subject: u8,
    pub table: &'a [bool],
    pub bad: &'a [bool],
    pub s: &'a [bool],
}

// Which moves fired last, in their order, by their numbers (512: none): those that added a fact, and those whose facts were put back.
#[derive(Drop)]
pub struct Fired {
    pub added: [u16; LEVEL_SIZE],
    pub deleted: [u16; LEVEL_SIZE],
}

impl Fired {
    // None yet.
    pub fn new() -> Fired
        ensures { result ≡ none_fired }
    {
        Fired {
            added: [512; LEVEL_SIZE],
            deleted: [512; LEVEL_SIZE],
        }
    }
}

// What the rounds of a level work on: the facts that are allowed (`u`), the flags of what was put in (`x`) and of what of it is put back (`y`),
// and the facts that are left of it without the forbidden ones (`d`).
#[derive(Drop)]
pub struct Work {
    pub u: [bool; LEVEL_SIZE],
    pub x: [bool; FLAGS_SIZE],
    pub y: [bool; FLAGS_SIZE],
    pub d: [bool; LEVEL_SIZE],
}

impl Work {
    // Before the first round: leave to add every fact, and nothing else.
    pub fn new() -> Work
        ensures { result ≡ new_work }
    {
        Work {
            u: [true; LEVEL_SIZE],
            x: [false; FLAGS_SIZE],
            y: [false; FLAGS_SIZE],
            d: [false; LEVEL_SIZE],
        }
    }
}

// The plan drawn so far, and room to draw on: its first `ends.ups` additions stand in `up`, its deletions in `down` from request `ends.at` on.
#[derive(Drop)]
pub struct Draft<'a> {
    pub ends: Ends,
    pub up: &'a mut [u8],
    pub down: &'a mut [u8],
}

// One round: what can be added within `u` to the flags `s` of the starting facts, to `x`, and what of that can be put back, to `y`.
// The requests are written behind the additions of the plan drawn so far, and before its deletions.
pub fn round(level: &Level, fired: &mut Fired, work: &mut Work, draft: &mut Draft) -> Ends
    requires { RoundReady (moves_in level.now.sides.adds.now) (moves_in level.now.sides.dels.now)
        fired.old.added fired.old.deleted level.now.table.now level.now.bad.now level.now.s.now
        work.old.u work.old.x work.old.y work.old.d draft.old.ends.ups draft.old.up.now
        draft.old.ends.at draft.old.down.now }
    ensures rounded { Rounded (moves_in level.now.sides.adds.now) (moves_in level.now.sides.dels.now)
        level.now.subject level.now.table.now level.now.bad.now level.now.s.now
        work.old.u work.new.x work.new.y work.new.d draft.old.ends.ups draft.old.up.now draft.new.up.now
        result.ups draft.old.ends.at draft.old.down.now draft.new.down.now result.at }
    ensures allowed { work.new.u ≡ work.old.u }
    ensures names { (length fired.new.added ≡ level_size) × (length fired.new.deleted ≡ level_size) }
    ensures lent { SameDraft draft.old draft.new }
{
    work.x.copy_from_slice(level.s);
    let adding = Sweep {
        moves: level.sides.adds,
        subject: level.subject,
        table: level.table,
    };
    let ups = close(
        &adding,
        &mut fired.added,
        &work.u,
        &mut work.x,
        draft.ends.ups,
        draft.up,
    );
    build::strip(&work.x, level.bad, &mut work.d);
    build::build_rest(level.table, &work.x, level.bad, &work.d, &mut work.y);
    let deleting = Sweep {
        moves: level.sides.dels,
        ..adding
    };
    let at = back(
        &deleting,
        &mut fired.deleted,
        level.bad,
        &work.x,
        &mut work.y,
        draft.ends.at,
        draft.down,
    );
    Ends { ups, at }
}

// The level: rounds until what was put in can all be put back, or a starting fact is lost; then `None`. `work.u` is what is allowed at first.
// `fired` names the moves to try first, and in the end those of the last round.
pub fn settle(level: &Level, fired: &mut Fired, work: &mut Work, draft: &mut Draft) -> Option<Ends>
    requires { RoundReady (moves_in level.now.sides.adds.now) (moves_in level.now.sides.dels.now)
        fired.old.added fired.old.deleted level.now.table.now level.now.bad.now level.now.s.now
        work.old.u work.old.x work.old.y work.old.d draft.old.ends.ups draft.old.up.now
        draft.old.ends.at draft.old.down.now }
    ensures result { Result (moves_in level.now.sides.adds.now) (moves_in level.now.sides.dels.now)
        level.now.subject level.now.table.now level.now.bad.now level.now.s.now
        work.old.u work.new.x draft.old.ends.ups draft.old.up.now draft.new.up.now
        draft.old.ends.at draft.old.down.now draft.new.down.now (found_of result) (ups_of result) (at_of result) }
    ensures names { (length fired.new.added ≡ level_size) × (length fired.new.deleted ≡ level_size) }
    ensures sizes { (length work.new.u ≡ level_size) ×
        ((length work.new.x ≡ flags_size) × ((length work.new.y ≡ flags_size) × (length work.new.d ≡ level_size))) }
    ensures lent { SameDraft draft.old draft.new }
{
    // Kept: a round ends by what it finds, so this is no loop over a range.
    loop {
        let e = round(level, fired, work, draft);
        if build::lacks(&work.x, &work.y).is_none() {
            return Some(e);
        }
        if build::lacks(level.s, &work.y).is_some() {
            return None;
        }
        build::keep(&work.y, &mut work.u);
    }
}
