// The second data block of a zone file, which starts at `b`: its transition times, type numbers, types and indicators, and the lines about its footer.
#![tactic(auto)]

ghost use Rattle.std.specs.Prelude.{◌≡◌, ◌+◌, ◌*◌, ◌^◌, ◌<◌};
ghost use Rattle.big_endian.specs.Walk.{all_from};
ghost use Rattle.model.specs.Bytes.{lifted};
ghost use Rattle.zone_tzif_head.specs.Heads.{words_end, SmallHead};
ghost use Rattle.zone_tzif_block.specs.Parts.{time_size, blocks_end, places_end, key_at, byte_below, type_offset, type_fits, marks_at, tail_at, tail_ok, times_rise, tables_ok, block_ok};

use zone_tzif_head::Head;

// The bytes of a time and of a transition, a time and a type number.
pub const TIME_SIZE: usize = 8;

pub const TRANSITION_SIZE: usize = 9;

// The bytes of a leap record.
const LEAP_SIZE: usize = 12;

// The bits of a signed number's sign.
const SIGN_64: u64 = 9223372036854775808;

const SIGN_32: u32 = 2147483648;

// The bits of -BIAS: 2^32 less 93,600.
const BIAS_WEST: u32 = 4294873696;

// A signed number's bits as the number with 2^63 added: the order of the signed numbers.
pub fn key_of(v: u64) -> u64
    ensures { result ≡ lifted 8 v }
{
    if v < SIGN_64 {
        v + SIGN_64
    } else {
        v - SIGN_64
    }
}

// Transition i's time with 2^63 added.
#[tactic(auto, unfolding(crate::specs::Parts::key_at))]
fn key_at(f: &[u8], b: usize, i: usize) -> u64
    requires { b + time_size * i < 2 ^ 64 }
    ensures { result ≡ key_at f.now b i }
{
    key_of(big_endian::be64_at(f, b + TIME_SIZE * i))
}

// Are the n transition times strictly ascending?
fn times_rise(f: &[u8], b: usize, n: usize) -> bool
    requires { (b < places_end) × (n < words_end) }
    ensures { result ≡ times_rise f.now b n }
{
    if n == 0 {
        return true;
    }
    let mut last = key_at(f, b, 0);
    for i in 0..n - 1 {
        let next = key_at(f, b, i + 1);
        if last >= next {
            return false;
        }
        last = next;
    }
    true
}

// Is byte i from `at` on below n?
#[tactic(auto, unfolding(crate::specs::Parts::byte_below))]
fn byte_below(f: &[u8], at: usize, n: usize, i: usize) -> bool
    requires { (at < places_end) × (i < places_end) }
    ensures { result ≡ byte_below f.now at n i }
{
    big_endian::small_at(f, at + i) < n
}

// Is each of the k bytes at `at` below n?
fn bytes_below(f: &[u8], at: usize, n: usize, k: usize) -> bool
    requires { (at < places_end) × (k < places_end) }
    ensures { result ≡ all_from (byte_below f.now at n) 0 k }
{
    (0..k).all(|i| byte_below(f, at, n, i))
}

// A type's offset as zones keep it, 0 for one below -93,599 s.
#[tactic(auto, unfolding(crate::specs::Parts::type_offset))]
pub fn offset_is(v: u32) -> u32
    ensures { result ≡ type_offset v }
{
    if v < SIGN_32 {
        return v + zone_offset::BIAS;
    }
    if v < BIAS_WEST {
        return 0;
    }
    v - BIAS_WEST
}

// Is type i of those at `at` one that is allowed?
#[tactic(auto, unfolding(crate::specs::Parts::type_fits))]
fn type_fits(f: &[u8], at: usize, chars: usize, i: usize) -> bool
    requires { (at < places_end) × (i < places_end) }
    ensures { result ≡ type_fits f.now at chars i }
{
    let p = at + zone_tzif_head::TYPE_SIZE * i;
    (1..=zone_offset::GREATEST).contains(&offset_is(big_endian::be32_at(f, p)))
        && big_endian::byte_at(f, p + 4) < 2
        && big_endian::small_at(f, p + 5) < chars
}

// Is each of the k types at `at` allowed?
fn types_fit(f: &[u8], at: usize, chars: usize, k: usize) -> bool
    requires { (at < places_end) × (k < places_end) }
    ensures { result ≡ all_from (type_fits f.now at chars) 0 k }
{
    (0..k).all(|i| type_fits(f, at, chars, i))
}

// A newline at t and another one as the last byte.
#[tactic(auto, unfolding(crate::specs::Parts::tail_ok))]
fn tail_ok(f: &[u8], t: usize) -> bool
    requires { t < places_end }
    ensures { result ≡ tail_ok f.now t }
{
    t + 1 < f.len()
        && big_endian::byte_at(f, t) == b'\n'
        && big_endian::byte_at(f, f.len() - 1) == b'\n'
}

// Is each indicator 0 or 1?
fn marks_ok(f: &[u8], b: usize, h: Head) -> bool
    requires { (b < blocks_end) × SmallHead h }
    ensures { result ≡ all_from (byte_below f.now (marks_at b h) 2) 0 (h.stds + h.uts) }
{
    bytes_below(
        f,
        b + (h.times * TRANSITION_SIZE + h.types * zone_tzif_head::TYPE_SIZE + h.chars),
        2,
        h.stds + h.uts,
    )
}

// Are times, type numbers, types and indicators allowed?
#[tactic(auto, unfolding(crate::specs::Parts::tables_ok))]
fn tables_ok(f: &[u8], b: usize, h: Head) -> bool
    requires { (b < blocks_end) × SmallHead h }
    ensures { result ≡ tables_ok f.now b h }
{
    times_rise(f, b, h.times)
        && bytes_below(f, b + h.times * TIME_SIZE, h.types, h.times)
        && types_fit(f, b + h.times * TRANSITION_SIZE, h.chars, h.types)
        && marks_ok(f, b, h)
}

// Where the newline before the footer stands.
pub fn tail_at(b: usize, h: Head) -> usize
    requires { (b < blocks_end) × SmallHead h }
    ensures { (result ≡ tail_at b h) × (result < places_end) }
{
    b + (h.times * TRANSITION_SIZE
        + h.types * zone_tzif_head::TYPE_SIZE
        + h.chars
        + h.leaps * LEAP_SIZE
        + h.stds
        + h.uts)
}

// Is the block usable, and are the lines about its footer?
#[tactic(auto, unfolding(crate::specs::Parts::block_ok))]
pub fn block_ok(f: &[u8], b: usize, h: Head) -> bool
    requires { (b < blocks_end) × SmallHead h }
    ensures { result ≡ block_ok f.now b h }
{
    zone_tzif_head::counts_ok(h) && tail_ok(f, tail_at(b, h)) && tables_ok(f, b, h)
}
