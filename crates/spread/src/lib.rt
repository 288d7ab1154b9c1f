// A fact put in for some persons at once, in words: the fact itself, and all that follows from it.

#![tactic(auto)]

ghost use Rattle.std.specs.Prelude.{◌≡◌, false, ◌&&◌, ◌+◌, ◌-◌, ◌*◌, ◌<◌, leb, ltb, length, get_or};
ghost use Rattle.shown.specs.Inner.Shown.{touches, not_higher};
ghost use Rattle.widths.specs.Inner.Widths.{level_size, higher_at, flags_size, table_size};
ghost use Rattle.words.specs.Inner.Words.{Lit};

use widths::{HIGHER_AT, LEVEL_SIZE, VALUES_SIZE};

// Sets the flags of the value f and of the lower values of its attribute, from place 320 on.
fn raise(f: usize, who: u64, held: &mut [u64])
    requires { (f < 128) × (length held.old ≡ flags_size) }
    ensures { Lit who (λ k. leb higher_at k && not_higher f (k - higher_at)) held.old held.new }
{
    for k in 16 * (f / 16)..f + 1 {
        words::add(HIGHER_AT + k, who, held);
    }
}

// Sets the effective flags that crew c hands on.
fn add_row(table: &[bool], c: usize, who: u64, held: &mut [u64])
    requires { (c < 32) × ((length table.now ≡ table_size) × (length held.old ≡ flags_size)) }
    ensures { Lit who (λ k. (leb level_size k && ltb k higher_at) && get_or table.now (level_size * c + (k - level_size)) false)
        held.old held.new }
{
    for k in 0..LEVEL_SIZE {
        let on = table[LEVEL_SIZE * c + k];
        words::add(LEVEL_SIZE + k, words::only(on, who), held);
    }
}

// Sets the flags from place 320 on that follow from what crew c hands on: from each attribute's highest value downwards.
fn add_higher(table: &[bool], c: usize, who: u64, held: &mut [u64])
    requires { (c < 32) × ((length table.now ≡ table_size) × (length held.old ≡ flags_size)) }
    ensures { Lit who (λ k. leb higher_at k && touches table.now (128 + c) k) held.old held.new }
{
    let mut on = false;
    for k in (0..VALUES_SIZE).rev() {
        let higher = on & (k % 16 != 15);
        on = table[LEVEL_SIZE * c + k] | higher;
        words::add(HIGHER_AT + k, words::only(on, who), held);
    }
}

// Puts the fact f in for the persons, with all that follows from it.
// Kept: beside `build::put_whole`, which does so for one subject in flags, with `add_row` and `shown::raise`; `build` has the reason.
pub fn put_whole(table: &[bool], f: usize, who: u64, held: &mut [u64])
    requires { (f < level_size) × ((length table.now ≡ table_size) × (length held.old ≡ flags_size)) }
    ensures { Lit who (touches table.now f) held.old held.new }
{
    words::add(f, who, held);
    words::add(LEVEL_SIZE + f, who, held);
    if f < VALUES_SIZE {
        raise(f, who, held);
        return;
    }
    add_row(table, f - VALUES_SIZE, who, held);
    add_higher(table, f - VALUES_SIZE, who, held);
}
