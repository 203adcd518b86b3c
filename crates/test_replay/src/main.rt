// Replays stored cases. A case is a book, a pack, query lines and the answers that are expected (tools/vector_cases.py writes them); the files
// cases-00.bin, cases-01.bin and so on hold them one behind the other. Each case's lines are answered as the clock answers them, and the answers
// are compared. Writes a line for each case that differs, and at the end how many cases and lines are equal and how many cases differ.
#![tactic(auto)]

ghost use Rattle.std.specs.Prelude.{◌<◌};
ghost use Rattle.std.specs.Str.{IsUtf8};

use answer_line::LONGEST;
use std::rt::Files;
use std::{fs, io};
use test_cases::{Case, Cases};

// The parts of a case: 0 the book, 1 the pack, 2 the lines, 3 the answers.
const PARTS: usize = 4;

// What was seen so far.
#[derive(Clone, Copy, Default)]
pub struct Seen {
    pub cases: u64,
    pub lines: u64,
    pub different: u64,
}

// The last digit of k.
fn digit(k: usize) -> u8
    ensures { result < 128 }
{
    b'0' + (k % 10) as u8
}

// The name of file k of the folder: cases-KK.bin, KK the last two digits of k.
fn cases_name(k: usize) -> [u8; 12]
    ensures { IsUtf8 result }
{
    let mut name = *b"cases-00.bin";
    name[6] = digit(k / 10);
    name[7] = digit(k);
    name
}

// Do the bytes of part stand in whole from the place at on?
fn stands_at(whole: &[u8], at: usize, part: &[u8]) -> bool {
    big_endian::part(whole, at, part.len()) == part
}

// How many lines a text has.
fn lines_in(s: &[u8]) -> u64 {
    s.iter().filter(|byte| **byte == b'\n').count() as u64
}

// Are the answers to the lines of `input` those that are expected?
fn agrees(book: &[u8], pack: &[u8], input: &[u8], expected: &[u8], out: &mut [u8]) -> bool {
    let b = build::build(book, pack);
    let p = query_stream::feed(book, pack, &b, query_stream::begin(), input, out);
    if p.next != input.len() {
        return false;
    }
    let mut tail = [0u8; LONGEST];
    let k = query_stream::end(book, pack, &b, p, &mut tail);
    let n = p.used;
    stands_at(expected, 0, &out[..n])
        && stands_at(expected, n, &tail[..k])
        && n <= expected.len()
        && expected.len() - n == k
}

// ---- files of cases

// Replays a case.
fn replay_case<P: Print>(
    rt: &P,
    case: Case<'_, PARTS>,
    seen: Seen,
    out: &mut [u8],
) -> io::Result<Seen> {
    let book = case.part(0);
    let pack = case.part(1);
    let input = case.part(2);
    let expected = case.part(3);
    let cases = seen.cases.saturating_add(1);
    if agrees(book, pack, input, expected, out) {
        return Ok(Seen {
            cases,
            lines: seen.lines.saturating_add(lines_in(expected)),
            ..seen
        });
    }
    println!(rt; "case {cases} differs")?;
    Ok(Seen {
        cases,
        different: seen.different.saturating_add(1),
        ..seen
    })
}

// Replays the cases of a file.
fn replay_file<P: Print>(rt: &P, file: &[u8], seen: Seen, out: &mut [u8]) -> io::Result<Seen> {
    let mut r = seen;
    for case in Cases::of(file) {
        r = replay_case(rt, case, r, out)?;
    }
    Ok(r)
}

// Replays file k of the folder. Answers without a change where there is none.
fn replay_at<R: Files + Print>(rt: &R, k: usize, seen: Seen, out: &mut [u8]) -> io::Result<Seen> {
    let name = cases_name(k);
    let Ok(mut file) = fs::open(rt, str::from_utf8(&name).unwrap()) else {
        return Ok(seen);
    };
    let mut buffer = [0u8; 65536];
    let n = pieces::read_full(&mut file, &mut buffer)?;
    replay_file(rt, &buffer[..n], seen, out)
}

// Replays all files of the folder.
fn replay_all<R: Files + Print>(rt: &R, out: &mut [u8]) -> io::Result<Seen> {
    let mut seen = Seen::default();
    for k in 0..100 {
        seen = replay_at(rt, k, seen, out)?;
    }
    Ok(seen)
}

fn main(rt: HostRuntime) -> io::Result<()> {
    let mut out = [0u8; 65792];
    let Seen {
        cases,
        lines,
        different,
    } = replay_all(&rt, &mut out)?;
    println!(rt; "{cases} cases, {lines} lines equal, {different} cases different")
}
