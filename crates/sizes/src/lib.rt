// What a book's first line says: how many persons, crews and attributes there are, and how many values each attribute has.

#![tactic(auto)]

ghost use Rattle.std.specs.Prelude.{◌≡◌, ◌<◌};
ghost use Rattle.quantifiers.specs.Quantifiers.{all_below};
ghost use Rattle.sizes.specs.Sizes.{between, values_of, is_value, is_crew_field, count_at, count_good_at, sizes_good, counts_of, sizes_of, value_count, fact_count};
ghost use Rattle.sizes.specs.Inner.Ranges.{InRange};

use std::array;

// The counts of values are in the attributes' order, 0 for an attribute that the book has not.
// Kept: an array and a count, as `frames::Rule`; and `InRange` as a clause, here and in `ledger` and `replay`: `sizes_of` of specs/Sizes makes
// sizes of any bytes.
#[derive(Clone, Copy)]
pub struct Sizes {
    pub persons: u8,
    pub crews: u8,
    pub attrs: u8,
    pub counts: [u8; 8],
}

pub fn is_between(lo: u8, hi: u8, n: u8) -> bool
    ensures { result ≡ between lo hi n }
{
    lo <= n && n <= hi
}

// How many values attribute a has.
pub fn values_of(z: Sizes, a: u8) -> u8
    ensures { result ≡ values_of z a }
{
    lines::byte_at(&z.counts, usize::from(a))
}

// Whether v is a value of attribute a.
pub fn is_value(z: Sizes, a: u8, v: u8) -> bool
    ensures { result ≡ is_value z a v }
{
    a < z.attrs && v < values_of(z, a)
}

// Whether a is a crew and v is 00.
pub fn is_crew_field(z: Sizes, a: u8, v: u8) -> bool
    ensures { result ≡ is_crew_field z a v }
{
    a < z.crews && v == 0
}

// Count j of a 01 frame.
fn count_at(x: &[u8], j: usize) -> u8
    requires { j < 256 }
    ensures { result ≡ count_at x.now j }
{
    lines::byte_at(x, 4 + j)
}

// Whether each of the first n counts is in its range.
fn are_counts(x: &[u8], n: u8) -> bool
    ensures { result ≡ all_below (count_good_at x.now) n }
{
    (0..n).all(|j| is_between(1, 16, count_at(x, usize::from(j))))
}

// Whether the sizes of a 01 frame are in their ranges.
#[tactic(auto, unfolding(crate::specs::Sizes::sizes_good))]
pub fn are_sizes(x: &[u8]) -> bool
    ensures { result ≡ sizes_good x.now }
{
    let persons = lines::byte_at(x, 1);
    let crews = lines::byte_at(x, 2);
    let attrs = lines::byte_at(x, 3);
    is_between(1, 64, persons) && crews <= 32 && is_between(1, 8, attrs) && are_counts(x, attrs)
}

fn counts_of(x: &[u8]) -> [u8; 8]
    ensures { result ≡ counts_of x.now }
{
    array::from_fn(|j| count_at(x, j))
}

// The sizes that a 01 frame writes.
pub fn sizes_of(x: &[u8]) -> Sizes
    ensures { result ≡ sizes_of x.now }
{
    Sizes {
        persons: lines::byte_at(x, 1),
        crews: lines::byte_at(x, 2),
        attrs: lines::byte_at(x, 3),
        counts: counts_of(x),
    }
}

// The sum of the counts.
fn value_count(z: Sizes) -> usize
    requires { InRange z }
    ensures { result ≡ value_count z }
{
    let mut n = 0;
    for a in 0..z.attrs {
        n += usize::from(values_of(z, a));
    }
    n
}

// How many facts a plan may be about: F.
pub fn fact_count(z: Sizes) -> usize
    requires { InRange z }
    ensures { result ≡ fact_count z }
{
    let crews = usize::from(z.crews);
    let values = value_count(z);
    (1 + crews) * values + crews
}
