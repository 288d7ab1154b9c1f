// The table of all persons' values, 64 rows of sixteen bytes: each row is what the person's flags show.

#![tactic(auto)]

ghost use Rattle.std.specs.Prelude.{◌≡◌, ◌≤◌, ◌<◌, length};
ghost use Rattle.widths.specs.Inner.Widths.{flags_size};
ghost use Rattle.words.specs.Inner.Words.{column};
ghost use Rattle.rows.specs.Inner.Rows.{table_bytes, Cleared, value_put, RowPut, RowClear, RowsShown};

use sizes::Sizes;
use widths::{LEVEL_SIZE, VALUES_SIZE};

// Sets the bit of value f % 16 of attribute f / 16 for person p, where it is a value of the book and the person's flags show it.
fn put_value(z: Sizes, p: u8, held: &[u64], f: u8, out: &mut [u8])
    requires { ((p < 64) × (f < 128)) × (length held.now ≡ flags_size) }
    ensures { out.new ≡ value_put z p (column held.now p) f out.old }
{
    let a = f / 16;
    let v = f % 16;
    let shown = words::has(held, LEVEL_SIZE + usize::from(f), p);
    let value = sizes::is_value(z, a, v);
    if shown & value {
        sets::put_at(out, 16 * usize::from(p) + 2 * usize::from(a), 2, v, true);
    }
}

// The row of person p, from the flags of the person's level.
fn put_row(z: Sizes, p: u8, held: &[u64], out: &mut [u8])
    requires p_bound { (p < 64) × (length held.now ≡ flags_size) }
    requires row_clear { RowClear p out.old }
    ensures { RowPut z p (column held.now p) 128 out.old out.new }
{
    for f in 0..VALUES_SIZE as u8 {
        put_value(z, p, held, f, out);
    }
}

// The rows of all persons, from the flags of all.
pub fn put_rows(z: Sizes, held: &[u64], out: &mut [u8])
    requires persons_bound { (z.persons ≤ 64) × (length held.now ≡ flags_size) }
    requires cleared { Cleared table_bytes out.old }
    ensures { RowsShown z held.now z.persons out.new }
{
    for p in 0..z.persons {
        put_row(z, p, held, out);
    }
}

// Every byte of the table is 0.
// Kept: one call under a name, as `flags::clear_flags`: what its caller needs is its contract.
pub fn clear(out: &mut [u8])
    requires { length out.old ≡ table_bytes }
    ensures { Cleared table_bytes out.new }
{
    out.fill(0);
}
