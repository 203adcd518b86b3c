// The dates that a window [lo, hi) has in a zone, and what a rule shows of one of them. Zone files are in the lent pack.
#![tactic(auto)]

ghost use Rattle.std.specs.Prelude.{◌≡◌, ◌+◌, ◌-◌, ◌<◌};
ghost use Rattle.model.specs.DayNumber.{signed_day, day_of};
ghost use Rattle.zone.specs.Zones.{zone_is, ZoneOk};
ghost use Rattle.rule.specs.Rules.{file_at};
ghost use Rattle.zone_local.specs.Dates.{held};
ghost use Rattle.window_dates.specs.Windows.{Window, IsLocalDates, OffsetHolds, RuleDate, rule_piece, day_by};

use block::Block;
use instant::Instant;
use rule::Rule;
use zone::Zone;

// The dates that a window has in a zone, and the offset that the zone keeps around it, 0 where none is known.
#[derive(Clone, Copy)]
pub struct LocalDates {
    pub first: i32,
    pub last: i32,
    pub offset: u32,
}

// Those of a window by the offset o, which holds from four days before it to four days after it.
fn dates_by(o: u32, lo: Instant, hi: Instant) -> LocalDates
    requires { OffsetHolds o lo hi }
    ensures { (result.first ≡ signed_day (day_by o lo - 2)) × (result.last ≡ signed_day (day_by o hi + 1)) × (result.offset ≡ o) }
{
    let first = civil::earlier(civil::day_at(lo.sec + o as u64 - zone_offset::BIAS_64), 2);
    let last = civil::later(civil::day_at(hi.sec + o as u64 - zone_offset::BIAS_64), 1);
    LocalDates {
        first,
        last,
        offset: o,
    }
}

// They are those of the zone whose file stands at `at` in the pack. One offset around the window gives them at once; else each end is looked up.
pub fn local_dates(
    pack: &[u8],
    at: usize,
    len: usize,
    z: Zone,
    lo: Instant,
    hi: Instant,
) -> LocalDates
    requires { ZoneOk (file_at pack.now at len) z × Window 14 lo hi }
    ensures { IsLocalDates (zone_is (file_at pack.now at len) z) lo hi result }
{
    let f = big_endian::part(pack, at, len);
    let offset = zone_local::one_offset(f, z, lo, hi);
    if 0 < offset {
        return dates_by(offset, lo, hi);
    }
    let first = zone_local::first_date(f, z, lo);
    let last = zone_local::last_date(f, z, hi);
    LocalDates {
        first,
        last,
        offset,
    }
}

// ---- a rule's date

// What the rule shows of a date in the window.
pub fn piece_of(pack: &[u8], r: Rule, days: LocalDates, day: i32, lo: Instant, hi: Instant) -> Block
    requires { RuleDate pack.now r days (day_of day) lo hi }
    ensures { held result ≡ rule_piece pack.now r lo hi (day_of day) }
{
    let z = r.zone;
    let from = r.from;
    let to = r.to;
    zone_local::piece_by(
        big_endian::part(pack, r.at, r.len),
        z,
        days.offset,
        from,
        to,
        day,
        lo,
        hi,
    )
}
