// What one subject, a crew or the query's person, shows to a rule's terms: its flags, and what one fact more adds to them.

#![tactic(auto)]

ghost use Rattle.std.specs.Prelude.{◌≡◌, false, ◌||◌, ◌+◌, ◌<◌, length, get_or};
ghost use Rattle.shown.specs.Inner.Shown.{touches, Extended, ExtendedAt, Falls, Raised};
ghost use Rattle.widths.specs.Inner.Widths.{level_size, higher_at, flags_size, table_size};

use widths::{HIGHER_AT, LEVEL_SIZE, VALUES_SIZE};

// What the fact `f` adds at the place 320 + `k`: a value, the flags of itself and of the lower values of its attribute; a membership, that of a value
// where its crew hands on this value or a higher one.
fn touch_higher(table: &[bool], f: usize, k: usize) -> bool
    requires { (f < level_size) × ((k < 128) × (length table.now ≡ table_size)) }
    ensures { result ≡ touches table.now f (higher_at + k) }
{
    if f < VALUES_SIZE {
        return (k / 16 == f / 16) & (k <= f);
    }
    let row = LEVEL_SIZE * (f - VALUES_SIZE);
    table[row + k..row + 16 * (k / 16) + 16].contains(&true)
}

// What the fact `f` adds at the place `k`.
fn touch(table: &[bool], f: usize, k: usize) -> bool
    requires { (f < level_size) × ((k < flags_size) × (length table.now ≡ table_size)) }
    ensures { result ≡ touches table.now f k }
{
    if k < LEVEL_SIZE {
        return k == f;
    }
    if HIGHER_AT <= k {
        return touch_higher(table, f, k - HIGHER_AT);
    }
    k - LEVEL_SIZE == f
        || f >= VALUES_SIZE && table[LEVEL_SIZE * (f - VALUES_SIZE) + (k - LEVEL_SIZE)]
}

// Whether `x` with the fact `f` put in shows the place `k`.
pub fn lit(table: &[bool], f: usize, k: usize, x: &[bool]) -> bool
    requires { (f < level_size) × ((k < flags_size) × ((length x.now ≡ flags_size) × (length table.now ≡ table_size))) }
    ensures { result ≡ get_or x.now k false || touches table.now f k }
{
    x[k] || touch(table, f, k)
}

// Writes the flags of attribute `a` from place 320 on: from its highest value downwards, whether the value or a higher one is effective.
fn extend_attribute(a: usize, x: &mut [bool])
    requires { (a < 8) × (length x.old ≡ flags_size) }
    ensures { ExtendedAt a x.old x.new }
{
    let mut on = false;
    for v in (0..16).rev() {
        on |= x[LEVEL_SIZE + (16 * a + v)];
        x[HIGHER_AT + (16 * a + v)] = on;
    }
}

// Writes the flags from place 320 on, attribute by attribute.
pub fn extend(x: &mut [bool])
    requires { length x.old ≡ flags_size }
    ensures { Extended x.old x.new }
{
    for a in 0..8 {
        extend_attribute(a, x);
    }
}

// Sets the flags of the value `f` and of the lower values of its attribute, from place 320 on. Where one stands, those of the lower values do.
pub fn raise(f: usize, x: &mut [bool])
    requires { (f < 128) × Falls x.old }
    ensures { Raised f x.old x.new }
{
    for k in (16 * (f / 16)..f + 1).rev() {
        if x[HIGHER_AT + k] {
            return;
        }
        x[HIGHER_AT + k] = true;
    }
}
