// Sets of small numbers: as one number, and as big-endian bytes of a slice.

#![tactic(auto)]

ghost use Rattle.std.specs.Prelude.{◌≡◌, ◌+◌, ◌*◌, ◌≤◌, ◌<◌, length};
ghost use Rattle.quantifiers.specs.Quantifiers.{any_from};
ghost use Rattle.sets.specs.Sets.{member, put, within, subset, byte_of, member_at, put_at, number_at};

// Whether v is a member of x.
pub fn has(x: u32, v: u8) -> bool
    ensures { result ≡ member x v }
{
    v < 32 && (x >> v) % 2 == 1
}

// x with v put in, or taken out.
pub fn with(x: u32, v: u8, on: bool) -> u32
    requires { v < 32 }
    ensures { result ≡ put x v on }
{
    if has(x, v) == on {
        return x;
    }
    let weight = 1u32 << v;
    if on { x + weight } else { x - weight }
}

// Whether the members of x are all below n.
pub fn is_within(x: u32, n: u8) -> bool
    ensures { result ≡ within x n }
{
    n >= 32 || x >> n == 0
}

// Whether each member of x is one of y.
pub fn is_subset(x: u32, y: u32) -> bool
    ensures { result ≡ subset x y }
{
    x & y == x
}

// The byte of v in the set of w bytes at a place.
// Kept: `at`, `w` and `v` with their bounds in each contract from here on, and no struct as `facts::Place`: `member_at` and `put_at` of
// specs/Sets take them one by one.
fn byte_of(at: usize, w: usize, v: u8) -> usize
    requires { (at < 4294967296) × ((w ≤ 4) × (v < 8 * w)) }
    ensures { result ≡ byte_of at w v }
{
    let behind = usize::from(v / 8);
    let ahead = w - 1 - behind;
    at + ahead
}

// Whether v is a member of the set of w bytes at a place. Past the end of s the set is empty.
pub fn has_at(s: &[u8], at: usize, w: usize, v: u8) -> bool
    requires { (at < 4294967296) × ((w ≤ 4) × (v < 8 * w)) }
    ensures { result ≡ member_at s.now at w v }
{
    let byte = s.get(byte_of(at, w, v)).copied().unwrap_or(0);
    has(u32::from(byte), v % 8)
}

// v put into the set of w bytes at a place, or taken out. Past the end of s nothing is written.
pub fn put_at(s: &mut [u8], at: usize, w: usize, v: u8, on: bool)
    requires { (at < 4294967296) × ((w ≤ 4) × (v < 8 * w)) }
    ensures { s.new ≡ put_at s.old at w v on }
{
    let i = byte_of(at, w, v);
    // Kept: a test of the index, not `if let Some(byte) = s.get_mut(i)`: the proof did not close, since the rest of `s` is not known afterwards.
    if i < s.len() {
        s[i] = with(u32::from(s[i]), v % 8, on) as u8;
    }
}

// The number that w bytes at a place write.
pub fn number_at(s: &[u8], at: usize, w: usize) -> u32
    requires { (w ≤ 4) × (at + w ≤ length s.now) }
    ensures { result ≡ number_at s.now at w }
{
    let mut number = 0;
    for byte in &s[at..at + w] {
        number = number * 256 + u32::from(*byte);
    }
    number
}

// The same where the bytes may lie past the end of s: those count as 0.
// Kept: beside `number_at`: that one asks that the bytes are there, this one that `at` is small; neither could serve the other's callers
// without asking more.
pub fn padded_number_at(s: &[u8], at: usize, w: usize) -> u32
    requires { (at < 4294967296) × (w ≤ 4) }
    ensures { result ≡ number_at s.now at w }
{
    let mut number = 0;
    for i in at..at + w {
        let byte = s.get(i).copied().unwrap_or(0);
        number = number * 256 + u32::from(byte);
    }
    number
}

// Whether the set of w bytes at a place has a member from v on: each byte is looked at once. Past the end of s the set is empty.
pub fn has_from_at(s: &[u8], at: usize, w: usize, v: u8) -> bool
    requires { (at < 4294967296) × (w ≤ 4) }
    ensures { result ≡ any_from (member_at s.now at w) v (8 * w) }
{
    !is_within(padded_number_at(s, at, w), v)
}
