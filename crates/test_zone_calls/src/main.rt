// Asks the calls on a zone file and writes each question with its answer, in the numbers that are given and answered. The file zones.bin holds zone files
// one behind the other, and questions.bin questions of 52 bytes (tools/zone_questions.py writes both, and what is expected): which call, the file's place
// and its length, 4 bytes each; then five signed numbers of 8 bytes, each with 2^63 added. `offset_in` is call 1 and `next_change_in` call 2, which take
// the first two of the numbers; `resolve_in` is call 3.
#![tactic(auto)]

ghost use Rattle.std.specs.Io.{ReadsAtMost};

use refusal::Refused;
use std::rt::Files;
use std::{fs, io};
use test_cases::signed_at;

// The bytes of a question.
const QUESTION_SIZE: usize = 52;

// ---- asking

// Writes a refusal's number and place.
fn refused<P: Print>(rt: &P, r: Refused) -> io::Result<()> {
    print!(rt; " no {} {}", r.refusal.number(), r.place)
}

// Asks for the offset at an instant, and writes the question and the answer.
fn offset<P: Print>(rt: &P, file: &[u8], sec: i64, ns: i64) -> io::Result<()> {
    print!(rt; "offset {sec} {ns}:")?;
    match zone_calls::offset_in(file, sec, ns) {
        Ok(o) => print!(rt; " {o}"),
        Err(r) => refused(rt, r),
    }
}

// Asks for the next change after an instant, and writes the question and the answer.
fn change<P: Print>(rt: &P, file: &[u8], sec: i64, ns: i64) -> io::Result<()> {
    print!(rt; "change {sec} {ns}:")?;
    match zone_calls::next_change_in(file, sec, ns) {
        Ok(Some(t)) => print!(rt; " {} {}", t.sec, t.ns),
        Ok(None) => print!(rt; " never"),
        Err(r) => refused(rt, r),
    }
}

// Asks for the instant and the mark of a local time, and writes the question and the answer.
fn resolve<P: Print>(
    rt: &P,
    file: &[u8],
    year: i64,
    month: i64,
    day: i64,
    second: i64,
    ns: i64,
) -> io::Result<()> {
    print!(rt; "resolve {year} {month} {day} {second} {ns}:")?;
    match zone_calls::resolve_in(file, year, month, day, second, ns) {
        Ok(r) => print!(rt; " {} {} {}", r.at.sec, r.at.ns, r.mark.number()),
        Err(r) => refused(rt, r),
    }
}

// ---- the questions

// Asks question q.
fn ask<P: Print>(rt: &P, zones: &[u8], q: &[u8]) -> io::Result<()> {
    let file = big_endian::part(zones, big_endian::size_at(q, 4), big_endian::size_at(q, 8));
    let a = signed_at(q, 12);
    let b = signed_at(q, 20);
    match big_endian::size_at(q, 0) {
        1 => offset(rt, file, a, b)?,
        2 => change(rt, file, a, b)?,
        _ => resolve(
            rt,
            file,
            a,
            b,
            signed_at(q, 28),
            signed_at(q, 36),
            signed_at(q, 44),
        )?,
    }
    println!(rt; "")
}

// Asks all questions.
fn ask_all<P: Print>(rt: &P, zones: &[u8], questions: &[u8]) -> io::Result<()> {
    for q in questions.chunks_exact(QUESTION_SIZE) {
        ask(rt, zones, q)?;
    }
    Ok(())
}

// Reads a file to the start of the buffer and answers how many bytes these are; none where it cannot be opened, and then standard error says why.
fn load<R: Files + Eprint>(rt: &R, path: &str, buffer: &mut [u8]) -> io::Result<usize>
    ensures { ReadsAtMost result buffer.new }
{
    match fs::open(rt, path) {
        Ok(mut file) => pieces::read_full(&mut file, buffer),
        Err(e) => {
            eprintln!(rt; "{path}: {e}")?;
            Ok(0)
        }
    }
}

// Asks the questions of questions.bin about the files in zones.bin.
fn main(rt: HostRuntime) -> io::Result<()> {
    let mut zones = [0u8; 65536];
    let mut questions = [0u8; 65536];
    let m = load(&rt, "zones.bin", &mut zones)?;
    let n = load(&rt, "questions.bin", &mut questions)?;
    ask_all(&rt, &zones[..m], &questions[..n])
}
