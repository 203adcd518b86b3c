// The next change of a zone's offset after a second. Seconds are counted from -10400-01-01T00:00:00Z.
#![tactic(auto)]

ghost use Rattle.std.specs.Prelude.{◌≡◌};
ghost use Rattle.zone.specs.Zones.{zone_is, ZoneOk};
ghost use Rattle.model.specs.NextChange.{next_change};
ghost use Rattle.zone_next_change.specs.NextIs.{the_next};

use zone::Zone;

// The first second after u, in the range, at which the offset differs from that a second before, if there is one. f is the zone's file.
pub fn next_change(f: &[u8], z: Zone, u: u64) -> Option<u64>
    requires { ZoneOk f.now z }
    ensures { the_next result ≡ next_change (zone_is f.now z) u }
{
    if instant::LAST <= u {
        return None;
    }
    let r = zone::run_at(f, z, u);
    let mut until = r.until;
    while until <= instant::LAST {
        let q = zone::run_at(f, z, until);
        if q.offset != r.offset {
            return Some(until);
        }
        until = q.until;
    }
    None
}
