// The header of a zone file (TZif, RFC 8536): does one stand at a place, its version and counts, and whether the counts are allowed.
#![tactic(auto)]

ghost use Rattle.std.specs.Prelude.{◌≡◌, ◌<◌};
ghost use Rattle.model.specs.Tzif.{counts_ok, zero_or};
ghost use Rattle.zone_tzif_head.specs.Heads.{headers_end, header_is, SmallHead, head_ok, head_at, second_at};

// The bytes of a header and of a type.
pub const HEADER_SIZE: usize = 44;

pub const TYPE_SIZE: usize = 6;

// The bytes of a transition and of a leap record in the first data block, whose times have four bytes.
const TRANSITION_SIZE: usize = 5;

const LEAP_SIZE: usize = 8;

// Where the version and the six counts stand in a header.
const VERSION_AT: usize = 4;

const UTS_AT: usize = 20;

const STDS_AT: usize = 24;

const LEAPS_AT: usize = 28;

const TIMES_AT: usize = 32;

const TYPES_AT: usize = 36;

const CHARS_AT: usize = 40;

// The bytes "TZif" as one number.
const MAGIC: u32 = 0x545A6966;

// The most types and transitions that a file may have.
const MOST_TYPES: usize = 256;

const MOST_TRANSITIONS: usize = 2048;

// A header's version and counts.
#[derive(Clone, Copy)]
pub struct Head {
    pub version: usize,
    pub uts: usize,
    pub stds: usize,
    pub leaps: usize,
    pub times: usize,
    pub types: usize,
    pub chars: usize,
}

// Does a header stand at `at`?
#[tactic(auto, unfolding(crate::specs::Heads::head_ok))]
pub fn head_ok(f: &[u8], at: usize) -> bool
    requires { at < headers_end }
    ensures { result ≡ head_ok f.now at }
{
    f.len() >= at + HEADER_SIZE
        && big_endian::be32_at(f, at) == MAGIC
        && matches!(big_endian::byte_at(f, at + VERSION_AT), b'2'..=b'3')
}

// The header at `at`.
#[tactic(auto, unfolding(crate::specs::Heads::head_at))]
pub fn head_at(f: &[u8], at: usize) -> Head
    requires { at < headers_end }
    ensures { (result ≡ head_at f.now at) × SmallHead result }
{
    Head {
        version: big_endian::small_at(f, at + VERSION_AT),
        uts: big_endian::size_at(f, at + UTS_AT),
        stds: big_endian::size_at(f, at + STDS_AT),
        leaps: big_endian::size_at(f, at + LEAPS_AT),
        times: big_endian::size_at(f, at + TIMES_AT),
        types: big_endian::size_at(f, at + TYPES_AT),
        chars: big_endian::size_at(f, at + CHARS_AT),
    }
}

// The place of the second header: the first data block is skipped by its own counts.
#[tactic(auto, unfolding(crate::specs::Heads::second_at))]
pub fn second_at(f: &[u8]) -> usize
    ensures { (result ≡ second_at f.now) × (result < headers_end) }
{
    let h = head_at(f, 0);
    HEADER_SIZE
        + (h.times * TRANSITION_SIZE
            + h.types * TYPE_SIZE
            + h.chars
            + h.leaps * LEAP_SIZE
            + h.stds
            + h.uts)
}

// Is n 0 or k?
fn zero_or(k: usize, n: usize) -> bool
    ensures { result ≡ zero_or k n }
{
    n == 0 || n == k
}

// Are a header's counts allowed?
#[tactic(auto, unfolding(model::specs::Tzif::counts_ok))]
pub fn counts_ok(h: Head) -> bool
    ensures { result ≡ counts_ok (header_is h) }
{
    1 <= h.types
        && h.types <= MOST_TYPES
        && h.times <= MOST_TRANSITIONS
        && 1 <= h.chars
        && h.leaps == 0
        && zero_or(h.types, h.stds)
        && zero_or(h.types, h.uts)
}
