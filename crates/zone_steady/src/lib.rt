// How long a zone keeps its offset beyond a span, on from its end or back from its start. f is the zone's file. Seconds are counted from
// -10400-01-01T00:00:00Z.
#![tactic(auto)]

ghost use Rattle.std.specs.Prelude.{◌≡◌, ◌+◌, ◌-◌, ◌≤◌, ◌<◌};
ghost use Rattle.model.specs.Zone as model;
ghost use Rattle.laws_zone.specs.Grammar.{FooterFits};
ghost use Rattle.zone_changes.specs.Meaning.{the_footer};
ghost use Rattle.instant.specs.Instant.{years_end};
ghost use Rattle.zone_tzif.specs.Opened.{Opened};
ghost use Rattle.zone.specs.Zones.{zone_is, Asked, zone_offset};
ghost use Rattle.zone_steady.specs.Steady.{SteadyRoom, IsOffsetSince, IsOffsetFrom, AskedSpan, RoomBeyond, since_at};

use zone::Zone;
use zone_footer::Footer;
use zone_tzif::Layout;

// An offset, and a second from which it stays.
#[derive(Clone, Copy)]
pub struct OffsetSince {
    pub offset: u32,
    pub since: u64,
}

// The table's k-th transition, 0 if k is 0.
fn table_since(f: &[u8], table: Layout, k: usize) -> u64
    requires { Opened f.now table × (k ≤ table.count) }
    ensures { result ≡ since_at f.now table k }
{
    if k == 0 {
        return 0;
    }
    zone_tzif::time_at(f, table, k - 1)
}

// The offset at u where the footer counts from `from` on; `last` is the table's last offset, which an empty footer leaves.
fn footer_behind(footer: Footer, last: u32, u: u64, from: u64) -> OffsetSince
    requires { FooterFits (the_footer footer) × (u < years_end) × (from ≤ u) }
    ensures { IsOffsetFrom (model.ruled_at (the_footer footer) last) u from result }
{
    match footer {
        Footer::Empty => OffsetSince {
            offset: last,
            since: from,
        },
        Footer::Fixed(offset) => OffsetSince {
            offset,
            since: from,
        },
        Footer::Rules(rules) => {
            let a = zone_changes::around(rules.std, rules.start, u);
            let b = zone_changes::around(rules.dst, rules.end, u);
            let since = from.max(a.last.max(b.last));
            if b.last <= a.last {
                return OffsetSince {
                    offset: rules.dst,
                    since,
                };
            }
            OffsetSince {
                offset: rules.std,
                since,
            }
        }
    }
}

// The offset at u, and a second from which it stays.
pub fn run_behind(f: &[u8], z: Zone, u: u64) -> OffsetSince
    requires { Asked f.now z u }
    ensures { IsOffsetSince (zone_offset f.now z) u result }
{
    let table = z.table;
    let k = zone_tzif::count_at(f, table, u);
    let offset = zone_tzif::table_offset(f, table, k);
    let since = table_since(f, table, k);
    if k < table.count {
        return OffsetSince { offset, since };
    }
    footer_behind(z.footer, offset, u, since)
}

// How far behind hi the offset stays: 0 if it changes from lo to hi.
fn room_on(f: &[u8], z: Zone, lo: u64, hi: u64) -> u64
    requires { AskedSpan f.now z lo hi }
    ensures { SteadyRoom (λ e. model.steady (zone_is f.now z) lo (hi + e)) result }
{
    let r = zone::run_at(f, z, lo);
    let mut until = r.until;
    while until <= hi {
        let q = zone::run_at(f, z, until);
        if q.offset != r.offset {
            return 0;
        }
        until = q.until;
    }
    until - hi
}

// How far before lo the offset stays: 0 if it changes from lo to hi.
fn room_back(f: &[u8], z: Zone, lo: u64, hi: u64) -> u64
    requires { AskedSpan f.now z lo hi }
    ensures { SteadyRoom (λ e. model.steady (zone_is f.now z) (lo - e) hi) result }
{
    let r = run_behind(f, z, hi);
    let mut since = r.since;
    while lo < since {
        let q = run_behind(f, z, since - 1);
        if q.offset != r.offset {
            return 0;
        }
        since = q.since;
    }
    lo - since + 1
}

// How far beyond the span from lo to hi the offset stays, one more than the last second that is sure: 0 if it changes from lo to hi.
// The way is an argument, and not two functions, since the walks that ask have it in a variable.
pub fn room(f: &[u8], z: Zone, back: bool, lo: u64, hi: u64) -> u64
    requires { AskedSpan f.now z lo hi }
    ensures { RoomBeyond (zone_is f.now z) back lo hi result }
{
    if back {
        return room_back(f, z, lo, hi);
    }
    room_on(f, z, lo, hi)
}
