// The planner of books that only grow, for the facts of one person: which facts are needed, and in which order they can be added. A rule adds
// the fact `f` where `us[f]`, and asks what the eight terms `ts[8 * f..]` say: below 160 that this fact is there, below 320 that the fact 160
// lower is lacking, else nothing.

#![tactic(auto)]

ghost use Rattle.std.specs.Prelude.{◌≡◌, ◌+◌, ◌*◌, ◌<◌, length};
ghost use Rattle.widths.specs.Inner.Widths.{level_size, terms_size};
ghost use Rattle.quantifiers.specs.Quantifiers.{any_below};
ghost use Rattle.grow.specs.Inner.Tables.{says, new_at, fails_at, unmet_at, bars_at, free_at, Gathered, Added, Answer, is_way, count_of};

use widths::{IDLE_AT, LEVEL_SIZE, TERMS_SIZE};

// ---------------------------------------------------------------- what is needed

// Whether term `i` asks for a fact that is not in `d`, for a fact of `d` that is not in `s`.
// Kept: here and below the tables and the flags as slices, whose lengths clauses say, and no struct: `grow`, which docs/PROMISES.md names, is lent
// them so, and of the flags it changes two; a term stays a number, as `says` of specs/Inner/Tables reads it.
fn asks_new(ts: &[u16], s: &[bool], d: &[bool], i: usize) -> bool
    requires { (i < terms_size) × ((length ts.now ≡ terms_size) × ((length s.now ≡ level_size) × (length d.now ≡ level_size))) }
    ensures { result ≡ new_at ts.now s.now d.now i }
{
    let f = i / 8;
    let g = usize::from(ts[i]);
    g < LEVEL_SIZE && (d[f] & !s[f] & !d[g])
}

// Adds to `d` each fact that the rules of its facts ask for, of those that `s` lacks, until nothing is left.
fn gather(ts: &[u16], s: &[bool], d: &mut [bool])
    requires { (length ts.now ≡ terms_size) × ((length s.now ≡ level_size) × (length d.old ≡ level_size)) }
    ensures { Gathered ts.now s.now d.old d.new }
{
    // Kept: a fact put in sets the place back, so this is no loop over a range.
    let mut i: usize = 0;
    while i < TERMS_SIZE {
        if asks_new(ts, s, d, i) {
            let g = usize::from(ts[i]);
            d[g] = true;
            i = 0;
        } else {
            i += 1;
        }
    }
}

// ---------------------------------------------------------------- the additions one by one

// Whether term `i` does not hold in `x`.
fn fails(ts: &[u16], x: &[bool], i: usize) -> bool
    requires { (i < terms_size) × ((length ts.now ≡ terms_size) × (length x.now ≡ level_size)) }
    ensures { result ≡ fails_at ts.now x.now i }
{
    let g = usize::from(ts[i]);
    if g < LEVEL_SIZE {
        !x[g]
    } else if g < IDLE_AT {
        x[g - LEVEL_SIZE]
    } else {
        false
    }
}

// Whether some term of the rule of `f` does not hold in `x`.
fn unmet(ts: &[u16], x: &[bool], f: usize) -> bool
    requires { (f < level_size) × ((length ts.now ≡ terms_size) × (length x.now ≡ level_size)) }
    ensures { result ≡ unmet_at ts.now x.now f }
{
    (0..8).any(|j| fails(ts, x, 8 * f + j))
}

// Whether the rule of `f` has the term `k`.
fn has_term(ts: &[u16], f: usize, k: usize) -> bool
    requires { (f < level_size) × (length ts.now ≡ terms_size) }
    ensures { result ≡ says ts.now f k }
{
    (0..8).any(|j| usize::from(ts[8 * f + j]) == k)
}

// Whether `h` is another fact than `f`, still to come, and its rule asks that `f` is lacking.
fn bars(ts: &[u16], d: &[bool], x: &[bool], f: usize, h: usize) -> bool
    requires { ((f < level_size) × (h < level_size))
        × ((length ts.now ≡ terms_size) × ((length d.now ≡ level_size) × (length x.now ≡ level_size))) }
    ensures { result ≡ bars_at ts.now d.now x.now f h }
{
    ((h != f) & d[h] & !x[h]) && has_term(ts, h, LEVEL_SIZE + f)
}

// Whether some fact does.
fn barred(ts: &[u16], d: &[bool], x: &[bool], f: usize) -> bool
    requires { (f < level_size) × ((length ts.now ≡ terms_size) × ((length d.now ≡ level_size) × (length x.now ≡ level_size))) }
    ensures { result ≡ any_below (bars_at ts.now d.now x.now f) level_size }
{
    (0..LEVEL_SIZE).any(|h| bars(ts, d, x, f, h))
}

// Whether the fact `f` is still to come, may be added, and no other still to come asks that it is lacking.
fn is_free(us: &[bool], ts: &[u16], d: &[bool], x: &[bool], f: usize) -> bool
    requires { (f < level_size) × ((length us.now ≡ level_size) × ((length ts.now ≡ terms_size)
        × ((length d.now ≡ level_size) × (length x.now ≡ level_size)))) }
    ensures { result ≡ free_at us.now ts.now d.now x.now f }
{
    (d[f] & !x[f] & us[f]) && !unmet(ts, x, f) && !barred(ts, d, x, f)
}

// Adds to `x` the facts of `d` one by one, each when it is free, until none is, and notes them in `order`. Returns how many.
fn add_all(us: &[bool], ts: &[u16], d: &[bool], x: &mut [bool], order: &mut [u8]) -> usize
    requires { (length us.now ≡ level_size) × ((length ts.now ≡ terms_size)
        × ((length d.now ≡ level_size) × ((length x.old ≡ level_size) × (length order.old ≡ level_size)))) }
    ensures { Added us.now ts.now d.now x.old x.new order.new result }
{
    let mut n: usize = 0;
    // Kept: an addition sets the place back, so this is no loop over a range.
    let mut f: usize = 0;
    while f < LEVEL_SIZE {
        if is_free(us, ts, d, x, f) {
            x[f] = true;
            order[n] = f as u8;
            n += 1;
            f = 0;
        } else {
            f += 1;
        }
    }
    n
}

// ---------------------------------------------------------------- the answer

// From the facts `x` a way to the facts `w`: its additions in the front of `order`, and how many; or `None`, where there is none. In the end
// `w` has all facts that are needed, and `x` those that were reached.
pub fn grow(
    us: &[bool],
    ts: &[u16],
    w: &mut [bool],
    x: &mut [bool],
    order: &mut [u8],
) -> Option<usize>
    requires { (length us.now ≡ level_size) × ((length ts.now ≡ terms_size)
        × ((length w.old ≡ level_size) × ((length x.old ≡ level_size) × (length order.old ≡ level_size)))) }
    ensures { Answer us.now ts.now x.old w.old order.new (is_way result) (count_of result) }
{
    gather(ts, x, w);
    let n = add_all(us, ts, w, x, order);
    match build::lacks(w, x) {
        Some(_) => None,
        None => Some(n),
    }
}
