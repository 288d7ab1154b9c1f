// Flags of the planner: what a level starts with and what the query forbids there, what its subject inherits, and the rows of the
// crews. A level has 160 flags: value v of attribute a at 16·a + v, membership in crew c at 128 + c. Level k is crew k, the level
// above all crews the query's person. Row c of `rows`, at 160·c, is what crew c effectively holds, and which crews it reaches.

#![tactic(auto)]

ghost use Rattle.std.specs.Prelude.{ℕ, Bool, ◌≡◌, false, ◌+◌, ◌*◌, ◌≤◌, ◌<◌, length, get_or};
ghost use Rattle.sets.specs.Sets.{member, member_at};
ghost use Rattle.flags.specs.Inner.Flags.{FlagsWritten, start_flag, added_flag, CrewTable, PersonTable, row_flag, FirstRows, SmallWants, bad_flag};
ghost use Rattle.flags.specs.Inner.Flags.{listed_reach, value_at, lacking_flag, want_flag, banned_flag};
ghost use Rattle.widths.specs.Inner.Widths.{level_size, flags_size, rows_size, table_size};

use facts::{CREWS_AT, MEMBERS_AT, Person};
use frames::{Query, Want};
use widths::{LEVEL_SIZE, ROWS_SIZE, VALUES_SIZE};

// Clears n flags from a place on.
// Kept: one call under a name, here and in `copy_flags`: what callers need is its contract.
fn clear_flags(s: &mut [bool], at: usize, n: usize)
    requires { at + n ≤ length s.old }
    ensures { FlagsWritten s.old at (λ _. false) n s.new }
{
    s[at..at + n].fill(false);
}

// Copies n flags from a place of one list to a place of another.
fn copy_flags(src: &[bool], from: usize, n: usize, dst: &mut [bool], to: usize)
    requires { (from + n ≤ length src.now) × (to + n ≤ length dst.old) }
    ensures { FlagsWritten dst.old to (λ f. get_or src.now (from + f) false) n dst.new }
{
    dst[to..to + n].copy_from_slice(&src[from..from + n]);
}

// Writes n flags from a place on: what `flag` makes of each number below n and of the flag that stands at its place.
pub fn write_flags<F: Fn(u8, bool) -> bool>(n: u8, s: &mut [bool], at: usize, flag: F)
    requires room { at + n ≤ length s.old }
    requires callable { (v : ℕ) (was : Bool) → v < n → F.pre flag v was }
    ensures { (p : ℕ → Bool → Bool) → ((v : ℕ) (was b : Bool) → v < n → F.post flag v was b → b ≡ p v was)
        → FlagsWritten s.old at (λ v. p v (get_or s.old (at + v) false)) n s.new }
{
    for v in 0..n {
        let place = at + usize::from(v);
        s[place] = flag(v, s[place]);
    }
}

// Writes n flags from a place on: whether each number below n is a member of the set.
fn write_bits(x: u32, n: u8, s: &mut [bool], at: usize)
    requires { (n ≤ 32) × (at + n ≤ length s.old) }
    ensures { FlagsWritten s.old at (member x) n s.new }
{
    write_flags(n, s, at, |v, _| sets::has(x, v));
}

// Writes a flag for each number of the set of w bytes at a place of the ledger.
fn write_set(facts: &[u8], place: usize, w: usize, s: &mut [bool], at: usize)
    requires { (place < 65536) × ((w ≤ 4) × (at + 8 * w ≤ length s.old)) }
    ensures { FlagsWritten s.old at (member_at facts.now place w) (8 * w) s.new }
{
    for m in 0..w {
        let byte = lines::byte_at(facts, place + (w - 1 - m));
        write_bits(u32::from(byte), 8, s, at + 8 * m);
    }
}

// Writes the values of the eight attributes at a place of the ledger.
fn write_values(facts: &[u8], place: usize, s: &mut [bool])
    requires { (place < 32768) × (length s.old ≡ level_size) }
    ensures { FlagsWritten s.old 0 (value_at facts.now place) 128 s.new }
{
    for a in 0..8 {
        write_set(facts, place + 2 * a, 2, s, 16 * a);
    }
}

// The starting facts of level k.
pub fn start_flags(facts: &[u8], crews: u8, person: Person, k: u8, s: &mut [bool])
    requires { length s.old ≡ level_size }
    ensures { FlagsWritten s.old 0 (start_flag facts.now crews person k) level_size s.new }
{
    clear_flags(s, 0, LEVEL_SIZE);
    let p = usize::from(person.0);
    if k < crews {
        if k < 32 {
            write_values(facts, CREWS_AT + 16 * usize::from(k), s);
        }
    } else if p < 64 {
        write_values(facts, 16 * p, s);
        write_set(facts, MEMBERS_AT + 4 * p, 4, s, VALUES_SIZE);
    }
}

// Adds row j of the crews to row 32 of the table.
fn add_last(rows: &[bool], j: u8, table: &mut [bool])
    requires { (j < 32) × ((length rows.now ≡ rows_size) × (length table.old ≡ table_size)) }
    ensures { FlagsWritten table.old rows_size (added_flag rows.now j table.old) level_size table.new }
{
    let row = LEVEL_SIZE * usize::from(j);
    write_flags(
        LEVEL_SIZE as u8,
        table,
        ROWS_SIZE,
        |f, was| was | rows[row + usize::from(f)],
    );
}

// The last row of the table is what crew k has by its juniors.
pub fn crew_table(juniors: &[u32], k: u8, rows: &[bool], table: &mut [bool])
    requires { (k < 32) × ((length juniors.now ≡ 32) × ((length rows.now ≡ rows_size) × (length table.old ≡ table_size))) }
    ensures { CrewTable juniors.now k rows.now table.old table.new }
{
    let direct = juniors[usize::from(k)];
    clear_flags(table, ROWS_SIZE, LEVEL_SIZE);
    for j in 0..k {
        if sets::has(direct, j) {
            add_last(rows, j, table);
        }
    }
}

// The person's table: the crews' rows, and a last row of nothing.
pub fn person_table(rows: &[bool], table: &mut [bool])
    requires { (length rows.now ≡ rows_size) × (length table.old ≡ table_size) }
    ensures { PersonTable rows.now table.new }
{
    copy_flags(rows, 0, ROWS_SIZE, table, 0);
    clear_flags(table, ROWS_SIZE, LEVEL_SIZE);
}

// Fills crew k's row from the flags of its level and from the last row of its table.
pub fn fill_row(table: &[bool], k: u8, x: &[bool], rows: &mut [bool])
    requires { (k < 32) × ((length x.now ≡ flags_size) × ((length table.now ≡ table_size) × (length rows.old ≡ rows_size))) }
    ensures { FlagsWritten rows.old (level_size * k) (row_flag table.now k x.now) level_size rows.new }
{
    let own = usize::from(k);
    let row = LEVEL_SIZE * own;
    copy_flags(x, LEVEL_SIZE, VALUES_SIZE, rows, row);
    copy_flags(table, ROWS_SIZE + VALUES_SIZE, 32, rows, row + VALUES_SIZE);
    rows[row + (VALUES_SIZE + own)] = true;
}

// Each crew's row has the crew itself, and nothing else.
pub fn first_rows(rows: &mut [bool])
    requires { length rows.old ≡ rows_size }
    ensures { FirstRows rows.new }
{
    clear_flags(rows, 0, ROWS_SIZE);
    for c in 0..32 {
        rows[LEVEL_SIZE * c + (VALUES_SIZE + c)] = true;
    }
}

// Adds to the n flags from a place on each number below n that the set lacks.
fn add_lacking(x: u32, n: u8, s: &mut [bool], at: usize)
    requires { (n ≤ 32) × (at + n ≤ length s.old) }
    ensures { FlagsWritten s.old at (lacking_flag s.old at x) n s.new }
{
    write_flags(n, s, at, |v, was| was | !sets::has(x, v));
}

// Adds the values that a named set lacks.
fn add_want(w: Want, bad: &mut [bool])
    requires { length bad.old ≡ level_size }
    ensures { FlagsWritten bad.old 0 (want_flag bad.old w) 128 bad.new }
{
    let a = usize::from(w.attr.0);
    if a < 8 {
        add_lacking(w.set, 16, bad, 16 * a);
    }
}

// Adds the values that some named set lacks.
// Kept: the first q sets cut here, in `own` and in `replay`: one expression; a method of `Query` would ask each for q ≤ 8 once more.
// Kept: `SmallWants` as a clause, here and in `own`: `query_of` of specs/Book makes a query of any bytes, of q over 8 too.
fn add_banned(q: &Query, bad: &mut [bool])
    requires { SmallWants q.now × (length bad.old ≡ level_size) }
    ensures { FlagsWritten bad.old 0 (banned_flag bad.old q.now q.now.q) 128 bad.new }
{
    for w in &q.wants[..usize::from(q.q)] {
        add_want(*w, bad);
    }
}

// The facts of level k that the query forbids. At a crew's level `below` says whether the crew is listed or lies below a listed one.
// Kept: the mode as a number, as `bad_flag` of specs/Inner/Flags reads it of a query of any bytes.
pub fn bad_flags(q: &Query, crews: u8, k: u8, below: bool, bad: &mut [bool])
    requires { SmallWants q.now × (length bad.old ≡ level_size) }
    ensures { FlagsWritten bad.old 0 (bad_flag q.now crews k below) level_size bad.new }
{
    clear_flags(bad, 0, LEVEL_SIZE);
    if q.mode == 1 {
        return;
    }
    if k >= crews {
        add_banned(q, bad);
        add_lacking(q.crews, 32, bad, VALUES_SIZE);
    } else if below {
        add_banned(q, bad);
    }
}

// Whether the row of some listed crew reaches crew c.
pub fn do_listed_reach(listed: u32, rows: &[bool], c: u8) -> bool
    requires { (c < 32) × (length rows.now ≡ rows_size) }
    ensures { result ≡ listed_reach listed rows.now c }
{
    let at = VALUES_SIZE + usize::from(c);
    (0..32).any(|d| sets::has(listed, d) && rows[LEVEL_SIZE * usize::from(d) + at])
}
