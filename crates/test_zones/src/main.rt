// Reads a zone pack, zones.bin, and writes a line for each of its zones: refused, or usable with the number of stored answers that the code
// gives too and the number that it does not. The answers for record K stand in answers-K.bin, K with three digits (tools/zone_answers.py makes
// both): pairs of signed 64-bit numbers, a local second as if it were UTC and the second that it is; or, where the first number lies beyond the local
// times, a second with 656,384,508,000 added and the second of the next change of the offset after it. A zone without that file has none.
#![tactic(auto)]

ghost use Rattle.std.specs.Prelude.{◌≡◌, ◌<◌, ◌≤◌};
ghost use Rattle.std.specs.Str.{IsUtf8};
ghost use Rattle.big_endian.specs.Walk.{count_below};
ghost use Rattle.zone.specs.Zones.{zone_is, ZoneOk};
ghost use Rattle.model.specs.NextChange.{next_change};
ghost use Rattle.test_zones.specs.Answers.{file_size, local_at, answer_at, is_next, agrees_at};
ghost use Rattle.zone_pack.specs.Pack.{most_zones};

use anyhow::{Context, Result};
use std::io::Read;
use std::rt::Files;
use std::{fs, io};
use zone::Zone;

// The most bytes of a file that are read.
const FILE_SIZE: usize = 65536;

// The bytes of a stored answer.
const PAIR_SIZE: usize = 16;

// The local second of 1970-01-01T00:00:00 as zones keep it.
const LOCAL_EPOCH: u64 = instant::EPOCH + zone_offset::BIAS_64;

// ---- comparing

// The local second of pair i, counted as the zone's code counts it.
fn local_at(a: &[u8], i: usize) -> u64
    requires { i < file_size }
    ensures { result ≡ local_at a.now i }
{
    std::num::wrapping_add_u64(big_endian::be64_at(a, PAIR_SIZE * i), LOCAL_EPOCH)
}

// The second of pair i, counted from -10400-01-01T00:00:00Z.
fn answer_at(a: &[u8], i: usize) -> u64
    requires { i < file_size }
    ensures { result ≡ answer_at a.now i }
{
    std::num::wrapping_add_u64(big_endian::be64_at(a, PAIR_SIZE * i + 8), instant::EPOCH)
}

// Is the next change of the zone's offset after u at v?
#[tactic(auto, unfolding(crate::specs::Answers::is_next))]
fn changes_at(f: &[u8], z: Zone, u: u64, v: u64) -> bool
    requires { ZoneOk f.now z }
    ensures { result ≡ is_next (next_change (zone_is f.now z) u) v }
{
    zone_next_change::next_change(f, z, u) == Some(v)
}

// Does the zone give pair i's second for its local second, or as its next change?
#[tactic(auto, unfolding(crate::specs::Answers::agrees_at))]
fn agrees_at(f: &[u8], z: Zone, a: &[u8], i: usize) -> bool
    requires { ZoneOk f.now z × (i < file_size) }
    ensures { result ≡ agrees_at f.now z a.now i }
{
    let x = local_at(a, i);
    if x < zone::FIRST_LOCAL {
        return false;
    }
    if x >= zone::YEARS_END {
        return changes_at(f, z, x - zone::YEARS_END, answer_at(a, i));
    }
    zone::second_of(f, z, x) == answer_at(a, i)
}

// How many of the first n pairs does it give?
fn agreeing(f: &[u8], z: Zone, a: &[u8], n: usize) -> usize
    requires { ZoneOk f.now z × (n ≤ file_size) }
    ensures { (result ≡ count_below (agrees_at f.now z a.now) n) × (result ≤ n) }
{
    let mut k: usize = 0;
    for i in 0..n {
        if agrees_at(f, z, a, i) {
            k += 1;
        }
    }
    k
}

// ---- reading and writing

// The last digit of k.
fn digit(k: usize) -> u8
    ensures { result < 128 }
{
    b'0' + (k % 10) as u8
}

// The name of the file with the answers of zone i: answers-KKK.bin, KKK the last three digits of i.
fn answers_name(i: usize) -> [u8; 15]
    ensures { IsUtf8 result }
{
    let mut name = *b"answers-000.bin";
    name[8] = digit(i / 100);
    name[9] = digit(i / 10);
    name[10] = digit(i);
    name
}

// Compares with the answers that the file holds.
fn compare<P: Print, F: Read>(rt: &P, f: &[u8], z: Zone, file: &mut F) -> io::Result<()>
    requires { ZoneOk f.now z }
{
    let mut buffer = [0u8; FILE_SIZE];
    let got = pieces::read_full(file, &mut buffer)?;
    let n = got / PAIR_SIZE;
    let k = agreeing(f, z, &buffer, n);
    print!(rt; ", {k} equal, {} different", n - k)
}

// Compares with the answers of zone i, whose file is f, where there are any.
fn compare_stored<R: Files + Print>(rt: &R, f: &[u8], z: Zone, i: usize) -> io::Result<()>
    requires { ZoneOk f.now z }
{
    let name = answers_name(i);
    let Ok(mut file) = fs::open(rt, str::from_utf8(&name).unwrap()) else {
        return Ok(());
    };
    compare(rt, f, z, &mut file)
}

// Writes what comes of zone i, whose file is f.
fn write_zone<R: Files + Print>(rt: &R, f: &[u8], i: usize) -> io::Result<()> {
    let Some(z) = zone::open(f) else {
        return println!(rt; "refused");
    };
    print!(rt; "usable")?;
    compare_stored(rt, f, z, i)?;
    println!(rt; "")
}

// Finds zone i by its name, and writes its line.
fn line<R: Files + Print>(rt: &R, p: &[u8], i: usize) -> io::Result<()>
    requires { i < most_zones }
{
    if !zone_pack::pack_ok(p) {
        return Ok(());
    }
    let start = directory::start_at(p, i);
    let name = big_endian::part(p, start + 1, big_endian::small_at(p, start));
    rt.write_all(name)?;
    let Some(zone) = zone_pack::look_in(p, name) else {
        return println!(rt; ": not found");
    };
    print!(rt; ": ")?;
    write_zone(rt, zone.file, i)
}

// Writes the lines of the first n zones.
fn lines<R: Files + Print>(rt: &R, p: &[u8], n: usize) -> io::Result<()>
    requires { n ≤ most_zones }
{
    for i in 0..n {
        line(rt, p, i)?;
    }
    Ok(())
}

// Writes the lines of a pack.
fn all_lines<R: Files + Print>(rt: &R, p: &[u8]) -> io::Result<()> {
    if !zone_pack::pack_ok(p) {
        return println!(rt; "no pack");
    }
    let n = directory::count_of(p);
    if n <= zone_pack::MOST_ZONES {
        lines(rt, p, n)?;
    }
    Ok(())
}

// Writes the lines of the pack in zones.bin.
fn main(rt: HostRuntime) -> Result<()> {
    let mut file = fs::open(&rt, "zones.bin").context("zones.bin")?;
    let mut buffer = [0u8; FILE_SIZE];
    let n = pieces::read_full(&mut file, &mut buffer).context("zones.bin")?;
    all_lines(&rt, &buffer[..n])?;
    Ok(())
}
