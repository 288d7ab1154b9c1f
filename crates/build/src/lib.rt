// A subject's flags made and changed: a fact put in, all built from its facts, and sets of facts compared.

#![tactic(auto)]

ghost use Rattle.std.specs.Prelude.{◌≡◌, ◌≤◌, ◌<◌, length, IfSome};
ghost use Rattle.shown.specs.Inner.Shown.{touches_fact, More, row_flags, Put, Whole};
ghost use Rattle.build.specs.Inner.Build.{Blank, Built, Stripped, Copied, Lacks, lacked};
ghost use Rattle.widths.specs.Inner.Widths.{level_size, flags_size, table_size};

use widths::{LEVEL_SIZE, ROWS_SIZE, VALUES_SIZE};

// Adds the row of crew `c` to the effective flags.
// Kept: one index goes over both slices, here, in `strip` and in `spread::add_row`; a zip of cuts is no plainer.
fn add_row(table: &[bool], c: usize, x: &mut [bool])
    requires { (c < 32) × ((length x.old ≡ flags_size) × (length table.now ≡ table_size)) }
    ensures { More x.old (row_flags table.now c) x.new }
{
    for k in 0..LEVEL_SIZE {
        x[LEVEL_SIZE + k] |= table[LEVEL_SIZE * c + k];
    }
}

// Puts the fact `f` in among the first 320 flags.
fn put(table: &[bool], f: usize, x: &mut [bool])
    requires { (f < level_size) × ((length x.old ≡ flags_size) × (length table.now ≡ table_size)) }
    ensures { More x.old (touches_fact table.now f) x.new }
{
    x[f] = true;
    x[LEVEL_SIZE + f] = true;
    if f >= VALUES_SIZE {
        add_row(table, f - VALUES_SIZE, x);
    }
}

// Puts the fact `f` into whole flags.
// Kept: beside `spread::put_whole`, not one function over a trait of `bool` and `u64`: `shown::raise` ends at the first flag that stands, which tells
// nothing of 64 persons, and `put`, `add_row` and `shown::extend` stay for `build`, which extends once behind all facts. Only this function and
// `raise` would go, and a trait with its law, its two impls and one definition in the place of `Put` and `Lit` would come.
pub fn put_whole(table: &[bool], f: usize, x: &mut [bool])
    requires { (f < level_size) × Whole table.now x.old }
    ensures { Put table.now x.old f x.new }
{
    put(table, f, x);
    if f < VALUES_SIZE {
        shown::raise(f, x);
    } else {
        shown::extend(x);
    }
}

// ---------------------------------------------------------------- made anew

// The flags of facts of a subject with no direct facts.
fn blank(table: &[bool], x: &mut [bool])
    requires { (length x.old ≡ flags_size) × (length table.now ≡ table_size) }
    ensures { Blank table.now x.new }
{
    x[..LEVEL_SIZE].fill(false);
    x[LEVEL_SIZE..2 * LEVEL_SIZE].copy_from_slice(&table[ROWS_SIZE..ROWS_SIZE + LEVEL_SIZE]);
}

// The flags of the subject whose direct facts are `d`.
pub fn build(table: &[bool], d: &[bool], x: &mut [bool])
    requires { (length x.old ≡ flags_size) × ((length table.now ≡ table_size) × (length d.now ≡ level_size)) }
    ensures { Built table.now d.now x.new }
{
    blank(table, x);
    for (f, holds) in d.iter().enumerate() {
        if *holds {
            put(table, f, x);
        }
    }
    shown::extend(x);
}

// Writes to `d` the facts of `x` that are not forbidden.
pub fn strip(x: &[bool], bad: &[bool], d: &mut [bool])
    requires { (length x.now ≡ flags_size) × ((length bad.now ≡ level_size) × (length d.old ≡ level_size)) }
    ensures { Stripped x.now bad.now d.new }
{
    for k in 0..LEVEL_SIZE {
        d[k] = x[k] & !bad[k];
    }
}

// Writes the facts of `y` to `u`.
// Kept: one call under a name, since what its callers need of the copy is said in its contract: of flags it has the facts.
pub fn keep(y: &[bool], u: &mut [bool])
    requires { (length y.now ≡ flags_size) × (length u.old ≡ level_size) }
    ensures { Copied y.now u.new }
{
    u.copy_from_slice(&y[..LEVEL_SIZE]);
}

// The first fact of `a` that `b` lacks.
pub fn lacks(a: &[bool], b: &[bool]) -> Option<usize>
    requires { (level_size ≤ length a.now) × (level_size ≤ length b.now) }
    ensures first { Lacks a.now b.now (lacked result) }
    ensures within { IfSome result (λ f. f < level_size) }
{
    (0..LEVEL_SIZE).find(|k| a[*k] && !b[*k])
}

// Writes to `y` the flags of `d`, which is `x` without its forbidden facts: those of `x` where it has none.
pub fn build_rest(table: &[bool], x: &[bool], bad: &[bool], d: &[bool], y: &mut [bool])
    requires { Whole table.now x.now × (Stripped x.now bad.now d.now × (length y.old ≡ flags_size)) }
    ensures { Built table.now d.now y.new }
{
    if lacks(x, d).is_none() {
        y.copy_from_slice(x);
    } else {
        build(table, d, y);
    }
}
