// Bytes and big-endian numbers at a place of a slice, and parts of a slice.
// Each function but `four_at` and `eight_at` takes every place: a byte past the end reads as 0, and a part ends where the slice ends. So a caller shows nothing
// about places; that a number lies inside is for the caller's own tests to say. A caller who has said so can use those two, which test nothing.
#![tactic(auto)]

ghost use Rattle.std.specs.Prelude.{◌≡◌, ◌+◌, ◌≤◌, ◌<◌, length, get_or, take, drop};
ghost use Rattle.big_endian.specs.Be.{two_bytes, four_bytes, be16, be32, be64};

// How many numbers two and four bytes can hold.
pub const TWO_BYTES: u32 = 65536;

pub const FOUR_BYTES: u64 = 4294967296;

// The byte at i.
pub fn byte_at(s: &[u8], i: usize) -> u8
    ensures { result ≡ get_or s.now i 0 }
{
    s.get(i).copied().unwrap_or(0)
}

// The byte at i as a size.
pub fn small_at(s: &[u8], i: usize) -> usize
    ensures { (result ≡ get_or s.now i 0) × (result < 256) }
{
    usize::from(byte_at(s, i))
}

// At most n bytes from a on: what is there of them.
pub fn part(s: &[u8], a: usize, n: usize) -> &[u8]
    ensures { result.now ≡ take n (drop a s.now) }
{
    let rest = s.get(a..).unwrap_or_default();
    rest.get(..n).unwrap_or(rest)
}

// The number of two bytes at i.
pub fn be16_at(s: &[u8], i: usize) -> u32
    ensures { (result ≡ be16 s.now i) × (result < two_bytes) }
{
    if i >= s.len() {
        return 0;
    }
    u32::from(u16::from_be_bytes([byte_at(s, i), byte_at(s, i + 1)]))
}

// The number of four bytes at i, all of which are there.
pub fn four_at(s: &[u8], i: usize) -> u32
    requires { i + 4 ≤ length s.now }
    ensures { result ≡ be32 s.now i }
{
    u32::from_be_bytes([s[i], s[i + 1], s[i + 2], s[i + 3]])
}

// The number of four bytes at i.
pub fn be32_at(s: &[u8], i: usize) -> u32
    ensures { result ≡ be32 s.now i }
{
    if i >= s.len() {
        return 0;
    }
    if s.len() - i >= 4 {
        return four_at(s, i);
    }
    u32::from_be_bytes([
        byte_at(s, i),
        byte_at(s, i + 1),
        byte_at(s, i + 2),
        byte_at(s, i + 3),
    ])
}

// The number of four bytes at i as a size.
pub fn size_at(s: &[u8], i: usize) -> usize
    ensures { (result ≡ be32 s.now i) × (result < four_bytes) }
{
    be32_at(s, i) as usize
}

// The number of eight bytes at i, all of which are there.
pub fn eight_at(s: &[u8], i: usize) -> u64
    requires { i + 8 ≤ length s.now }
    ensures { result ≡ be64 s.now i }
{
    u64::from_be_bytes([
        s[i],
        s[i + 1],
        s[i + 2],
        s[i + 3],
        s[i + 4],
        s[i + 5],
        s[i + 6],
        s[i + 7],
    ])
}

// The number of eight bytes at i.
pub fn be64_at(s: &[u8], i: usize) -> u64
    ensures { result ≡ be64 s.now i }
{
    if i >= s.len() {
        return 0;
    }
    if s.len() - i >= 8 {
        return eight_at(s, i);
    }
    u64::from(be32_at(s, i)) * FOUR_BYTES + u64::from(be32_at(s, i + 4))
}
