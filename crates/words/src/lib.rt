// The flags of up to 64 persons at once: a word for each flag, and in each word a bit for each person.

#![tactic(auto)]

ghost use Rattle.std.specs.Prelude.{◌≡◌, false, cond, ◌<◌, eqb, length, get_or};
ghost use Rattle.widths.specs.Inner.Widths.{flags_size};
ghost use Rattle.words.specs.Inner.Words.{column, Lit, ColumnClear, ColumnPut};

// The persons, or none of them.
pub fn only(on: bool, who: u64) -> u64
    ensures { result ≡ cond on who 0 }
{
    if on { who } else { 0 }
}

// Sets the flag k for the persons.
pub fn add(k: usize, who: u64, held: &mut [u64])
    requires { (k < flags_size) × (length held.old ≡ flags_size) }
    ensures { Lit who (λ j. eqb j k) held.old held.new }
{
    held[k] |= who;
}

// Whether the flag k of person p is set.
pub fn has(held: &[u64], k: usize, p: u8) -> bool
    requires { (p < 64) × (k < length held.now) }
    ensures { result ≡ get_or (column held.now p) k false }
{
    (held[k] >> p) % 2 == 1
}

// Writes the flags of person p, all of them clear before.
pub fn put_column(s: &[bool], p: u8, held: &mut [u64])
    requires p_bound { (p < 64) × ((length s.now ≡ flags_size) × (length held.old ≡ flags_size)) }
    requires column_clear { ColumnClear p held.old }
    ensures { ColumnPut p s.now held.old held.new }
{
    let who = 1u64 << p;
    for (k, on) in s.iter().enumerate() {
        if *on {
            add(k, who, held);
        }
    }
}
