// The levels of all persons at once, above crews that are settled: what each person can come to hold, where nothing is forbidden. The flags stand in
// words, with a bit for each person, so that one look at a move serves all persons.

#![tactic(auto)]

ghost use Rattle.std.specs.Prelude.{◌≡◌, ◌+◌, ◌≤◌, ◌<◌, length};
ghost use Rattle.level.specs.Inner.Moves.{Fine, Sound, move_from, move_at, moves_in};
ghost use Rattle.widths.specs.Inner.Widths.{flags_size, table_size, move_size};
ghost use Rattle.persons.specs.Inner.Persons.{NoFlags, Begun, Meeting, Firing, AllWhole, AllEnd, PersonsEnd};

use facts::Person;
use widths::{FLAGS_SIZE, LEVEL_SIZE, MOVE_SIZE};

// What each person begins with. Returns the persons, a bit each.
fn start(persons: u8, crews: u8, facts: &[u8], table: &[bool], held: &mut [u64]) -> u64
    requires { (persons ≤ 64) × ((length table.now ≡ table_size) × NoFlags held.old) }
    ensures { Begun facts.now crews table.now persons result held.new }
{
    let mut first = [false; LEVEL_SIZE];
    let mut s = [false; FLAGS_SIZE];
    let mut all: u64 = 0;
    for p in 0..persons {
        flags::start_flags(facts, crews, Person(p), crews, &mut first);
        build::build(table, &first, &mut s);
        words::put_column(&s, p, held);
        all |= 1u64 << p;
    }
    all
}

// Those of the persons for whom all terms of the move at the place `at` of the numbers hold.
// Kept: `meets`, `fires` and `close` beside those of `level`: words of persons for flags, no requests, no names tried first, and promises of
// their own (`Meeting`, `Firing`, `AllEnd`).
// Kept: `Fine` and `Sound` of the moves as clauses, as in `level`: `settle`, which docs/PROMISES.md names, is lent the flat list of numbers.
fn meets(ms: &[u16], at: usize, all: u64, held: &[u64]) -> u64
    requires { (at + move_size ≤ length ms.now) × (Fine (move_from ms.now at) × (length held.now ≡ flags_size)) }
    ensures { Meeting (move_from ms.now at) all held.now result }
{
    let n = usize::from(ms[at + 1]);
    let mut who = all;
    for k in &ms[at + 6..at + 6 + n] {
        if who == 0 {
            return 0;
        }
        who &= held[usize::from(*k)];
    }
    who
}

// Those of the persons for whom move i adds a fact: it is not there yet, and the terms hold.
fn fires(ms: &[u16], i: usize, all: u64, held: &[u64]) -> u64
    requires { Sound (moves_in ms.now) × ((i < (moves_in ms.now).count) × (length held.now ≡ flags_size)) }
    ensures { Firing (move_at (moves_in ms.now) i) all held.now result }
{
    let at = MOVE_SIZE * i;
    let f = usize::from(ms[at]);
    let there = all & held[f];
    meets(ms, at, all ^ there, held)
}

// Adds for each of the persons what the moves can add, until nothing is left for any.
fn close(adds: &[u16], table: &[bool], all: u64, held: &mut [u64])
    requires { Sound (moves_in adds.now) × AllWhole table.now all held.old }
    ensures { AllEnd (moves_in adds.now) table.now all held.old held.new }
{
    let count = adds.len() / MOVE_SIZE;
    // Kept: an addition sets the count of quiet moves back, so this is no loop over a range.
    let mut quiet: usize = 0;
    let mut i: usize = 0;
    while quiet < count {
        let who = fires(adds, i, all, held);
        if who == 0 {
            quiet += 1;
        } else {
            let f = usize::from(adds[MOVE_SIZE * i]);
            spread::put_whole(table, f, who, held);
            quiet = 0;
        }
        i = level::next(i, count);
    }
}

// What each person comes to.
pub fn settle(persons: u8, crews: u8, facts: &[u8], adds: &[u16], table: &[bool], held: &mut [u64])
    requires persons_bound { (persons ≤ 64) × Sound (moves_in adds.now) }
    requires table_len { (length table.now ≡ table_size) × NoFlags held.old }
    ensures { PersonsEnd (moves_in adds.now) facts.now crews table.now persons held.new }
{
    let all = start(persons, crews, facts, table, held);
    close(adds, table, all, held);
}
