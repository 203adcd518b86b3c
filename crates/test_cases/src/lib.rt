// What the programs that ask stored questions share: the file of cases, the numbers of a question, the comparison with its answer, and what was seen. A file
// has its cases one behind the other; a case is the lengths of its parts, four bytes each, and then the parts.
#![tactic(auto)]

ghost use Rattle.std.specs.Prelude.{◌≡◌, ◌+◌, ◌*◌, ◌≤◌, ◌<◌, length, IfOk, MatchOption};
ghost use Rattle.std.specs.Io.{ReadsAtMost};
ghost use Rattle.std.specs.Iterator.{at_most};
ghost use Rattle.big_endian.specs.Be.{four_bytes};
ghost use Rattle.test_cases.specs.Cases.{longest_file, most_parts, is_number_at, is_refusal_at};

use std::rt::Files;
use std::{fs, io};

// The most bytes that a file of cases has.
pub const LONGEST: usize = 300000;

// Writes a text to standard output.
pub fn text<P: Print>(rt: &P, s: &[u8]) -> io::Result<()> {
    rt.write_all(s)
}

// Writes a number in decimal digits.
pub fn number<P: Print>(rt: &P, n: u64) -> io::Result<()> {
    rt.print(n)
}

// ---- the file of cases

// Reads the file to the start of the buffer and answers how many of its bytes these are.
pub fn load<R: Files>(rt: &R, path: &str, buffer: &mut [u8]) -> io::Result<usize>
    ensures { ReadsAtMost result buffer.new }
{
    let mut file = fs::open(rt, path)?;
    pieces::read_full(&mut file, buffer)
}

// A case of N parts: the bytes of the file from its start on.
#[derive(Clone, Copy)]
pub struct Case<'a, const N: usize> {
    bytes: &'a [u8],
    ghost some_parts: { (0 < N) × (N ≤ most_parts) },
}

impl<'a, const N: usize> Case<'a, N> {
    // The length of part k.
    fn size_of(self, k: usize) -> usize
        requires { k < N }
        ensures { result < four_bytes }
    {
        big_endian::size_at(self.bytes, 4 * k)
    }

    // The place of part k; the part behind the last is the next case.
    fn place_of(self, k: usize) -> usize
        requires { k ≤ N }
        ensures { (0 < result) × (result ≤ 4 * N + k * four_bytes) }
    {
        let mut r = 4 * N;
        for i in 0..k {
            r += self.size_of(i);
        }
        r
    }

    // Part k.
    pub fn part(self, k: usize) -> &'a [u8]
        requires { k < N }
        ensures { length result.now ≤ length self.entry.bytes.now }
    {
        big_endian::part(self.bytes, self.place_of(k), self.size_of(k))
    }
}

// The cases of a file that are left, of N parts each: the next one.
#[derive(Drop)]
pub struct Cases<'a, const N: usize>(Case<'a, N>);

impl<'a, const N: usize> Cases<'a, N> {
    // The cases of a file.
    pub fn of(file: &'a [u8]) -> Cases<'a, N>
        requires { (0 < N) × (N ≤ most_parts) }
        ensures { result.0.bytes.now ≡ file.now }
    {
        Cases(Case { bytes: file })
    }
}

// Each case has bytes.
impl<'a, const N: usize> Iterator for Cases<'a, N> {
    type Item = Case<'a, N>;

    ghost next_gives = { λ s r t. MatchOption r (length s.0.bytes.now ≡ 0) (λ c. (c.bytes.now ≡ s.0.bytes.now) × (length t.0.bytes.now < length s.0.bytes.now)) };

    ghost remaining = { λ s. at_most (length s.0.bytes.now) };

    fn next(&mut self) -> Option<Case<'a, N>> {
        let case = self.0;
        if case.bytes.is_empty() {
            return None;
        }
        let n = case.place_of(N).min(case.bytes.len());
        self.0 = Case {
            bytes: &case.bytes[n..],
        };
        Some(case)
    }
}

// The signed number at a place of a question, which is stored as the one that is 2^63 more.
pub fn signed_at(q: &[u8], at: usize) -> i64 {
    instant_signed::lower(big_endian::be64_at(q, at))
}

// ---- one answer

// Is x the number that question q has at a place?
#[tactic(auto, unfolding(crate::specs::Cases::is_number_at))]
pub fn is_stored(q: &[u8], at: usize, x: i64) -> bool
    ensures { result ≡ is_number_at q.now at «x» }
{
    instant_signed::lift(x) == big_endian::be64_at(q, at)
}

// Is this the refusal that question q has at a place: its number, and behind it its own place?
#[tactic(auto, unfolding(crate::specs::Cases::is_refusal_at))]
pub fn is_refusal(q: &[u8], at: usize, number: u32, place: usize) -> bool
    requires { at ≤ longest_file }
    ensures { result ≡ is_refusal_at q.now at number place }
{
    number as usize == big_endian::size_at(q, at) && place == big_endian::size_at(q, at + 4)
}

// ---- what is asked

// The parts of a case with questions: 0 the book, 1 the pack, 2 the questions.
const PARTS: usize = 3;

// The questions of a case of a book, a pack and questions, which stand one behind the other.
pub trait Asked {
    // How long the first question of q is.
    fn length_of(q: &[u8]) -> usize
        ensures { 0 < result };

    // The refusal that question q expects; 0 for none.
    fn refusal_of(q: &[u8]) -> usize;

    // Asks question q. Is the answer the one that is expected?
    fn agrees(&mut self, book: &[u8], pack: &[u8], q: &[u8]) -> bool;
}

// ---- what was seen

// How many cases, answers and refusals that are as expected, and answers that are not.
#[derive(Clone, Copy, Default)]
pub struct Seen {
    pub cases: u64,
    pub given: u64,
    pub refused: u64,
    pub different: u64,
}

impl Seen {
    // One case more.
    pub fn next_case(self) -> Seen
        ensures { result.cases ≤ self.cases + 1 }
    {
        Seen {
            cases: self.cases.saturating_add(1),
            ..self
        }
    }

    // One answer more that is as expected: the refusal of this number, or none if it is 0.
    pub fn equal(self, refusal: usize) -> Seen
        ensures { result.cases ≡ self.cases }
    {
        if 0 < refusal {
            return Seen {
                refused: self.refused.saturating_add(1),
                ..self
            };
        }
        Seen {
            given: self.given.saturating_add(1),
            ..self
        }
    }

    // One answer more that differs. Writes a line about it.
    pub fn different<P: Print>(self, rt: &P, what: &[u8]) -> io::Result<Seen>
        ensures { IfOk result (λ s. s.cases ≡ self.cases) }
    {
        text(rt, b"case ")?;
        number(rt, self.cases)?;
        text(rt, b": a ")?;
        text(rt, what)?;
        println!(rt; " differs")?;
        Ok(Seen {
            different: self.different.saturating_add(1),
            ..self
        })
    }

    // Writes what was seen.
    pub fn tell<P: Print>(self, rt: &P, what: &[u8]) -> io::Result<()> {
        print!(rt; "{} cases, {} ", self.cases, self.given)?;
        text(rt, what)?;
        println!(rt;
            " and {} refusals equal, {} different",
            self.refused, self.different
        )
    }
}

// ---- all questions

// Asks the questions of a case and counts them. Writes a line for each answer that differs, which is called `what`.
fn ask_case<P: Print, A: Asked + Drop>(
    rt: &P,
    case: Case<'_, PARTS>,
    asked: &mut A,
    what: &[u8],
    seen: Seen,
) -> io::Result<Seen>
    ensures { IfOk result (λ s. s.cases ≤ seen.cases + 1) }
{
    let book = case.part(0);
    let pack = case.part(1);
    let mut r = seen.next_case();
    let mut rest = case.part(2);
    while !rest.is_empty() {
        r = if asked.agrees(book, pack, rest) {
            r.equal(A::refusal_of(rest))
        } else {
            r.different(rt, what)?
        };
        rest = &rest[A::length_of(rest).min(rest.len())..];
    }
    Ok(r)
}

// Asks the questions of all cases of a file; each case has bytes.
pub fn ask_file<P: Print, A: Asked + Drop>(
    rt: &P,
    file: &[u8],
    asked: &mut A,
    what: &[u8],
) -> io::Result<Seen>
    ensures { IfOk result (λ s. s.cases ≤ length file.now) }
{
    let mut seen = Seen::default();
    for case in Cases::of(file) {
        seen = ask_case(rt, case, asked, what, seen)?;
    }
    Ok(seen)
}
