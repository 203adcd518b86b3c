// The zone's code for a program in C that times it (bench/zone): the seconds of many local seconds, and the offsets at many seconds, in place.
// The file is opened once in a call. Seconds are counted from -10400-01-01T00:00:00Z; offsets and local seconds have zone_offset::BIAS added.
#![tactic(auto)]

ghost use Rattle.std.specs.Prelude.{◌≡◌};
ghost use Rattle.model.specs.Tzif.{zone_of};
ghost use Rattle.zone.specs.Zones.{zone_is, ZoneOk};
ghost use Rattle.bench_zone.specs.Each.{second_in, offset_asked, seconds_of, offsets_of};
ghost use Rattle.laws_base.specs.Mapped.{Mapped};

use zone::Zone;

// The second of one local second, and 0 for one that cannot be asked for.
#[tactic(auto, unfolding(crate::specs::Each::second_in))]
fn second(f: &[u8], z: Zone, x: u64) -> u64
    requires { ZoneOk f.now z }
    ensures { result ≡ second_in (zone_is f.now z) x }
{
    if x < zone::FIRST_LOCAL || zone::YEARS_END <= x {
        return 0;
    }
    zone::second_of(f, z, x)
}

// The offset at one second, and 0 at one that cannot be asked for.
#[tactic(auto, unfolding(crate::specs::Each::offset_asked))]
fn offset(f: &[u8], z: Zone, u: u64) -> u64
    requires { ZoneOk f.now z }
    ensures { result ≡ offset_asked (zone_is f.now z) u }
{
    if zone::YEARS_END <= u {
        return 0;
    }
    u64::from(zone::run_at(f, z, u).offset)
}

// Puts the second of each local second in its place.
fn seconds(f: &[u8], z: Zone, xs: &mut [u64])
    requires { ZoneOk f.now z }
    ensures { Mapped (second_in (zone_is f.now z)) xs.old xs.new }
{
    for x in xs.iter_mut() {
        *x = second(f, z, *x);
    }
}

// Puts the offset at each second in its place.
fn offsets(f: &[u8], z: Zone, us: &mut [u64])
    requires { ZoneOk f.now z }
    ensures { Mapped (offset_asked (zone_is f.now z)) us.old us.new }
{
    for x in us.iter_mut() {
        *x = offset(f, z, *x);
    }
}

// Puts the second of each local second in its place. A file that is refused changes nothing.
#[unsafe(no_mangle)]
pub extern "C" fn bench_zone_seconds(f: &[u8], xs: &mut [u64])
    ensures { Mapped (seconds_of (zone_of f.now)) xs.old xs.new }
{
    let Some(z) = zone::open(f) else {
        return;
    };
    seconds(f, z, xs);
}

// Puts the offset at each second in its place. A file that is refused changes nothing.
#[unsafe(no_mangle)]
pub extern "C" fn bench_zone_offsets(f: &[u8], us: &mut [u64])
    ensures { Mapped (offsets_of (zone_of f.now)) us.old us.new }
{
    let Some(z) = zone::open(f) else {
        return;
    };
    offsets(f, z, us);
}
