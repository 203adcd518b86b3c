// The answers to a text of query lines, where the text comes in pieces and the answers go out in pieces. What is kept between two pieces does not
// grow: `begin`, then `feed` until each piece is used up, then `end`. `out_yet` is the text of answers that is still to come; each call writes
// the front of it, so that all pieces together are `answered` of the definitions.
#![tactic(auto)]

ghost use Rattle.std.specs.Prelude.{◌≡◌, List, [], ◌∷◌, ℕ, ◌-◌, ◌^◌, ◌≤◌, ◌<◌, length};
ghost use Rattle.answer_line.specs.Placed.{longest};
ghost use Rattle.build.specs.Read.{Builds};
ghost use Rattle.query_line.specs.Reading.{query_from, yet_from};
ghost use Rattle.query_stream.specs.Streaming.{Begun, HasLineRoom, LineEnded, LineGoesOn, FedBy, Ended};
ghost use Rattle.model.specs.Bytes.{newline};

use answer_line::LONGEST;
use query_line::{Line, Query};
use refusal::Refused;
use rule::Schedule;

// The byte that ends a line.
const NEWLINE: u8 = b'\n';

// Where reading and writing stand: the line at hand, None where it is no query, whether it has a byte, the next byte to read and the next place to write.
#[derive(Clone, Copy)]
pub struct Progress {
    pub line: Option<Line>,
    pub begun: bool,
    pub next: usize,
    pub used: usize,
}

// Nothing is read yet.
pub fn begin() -> Progress
    ensures { Begun result }
{
    Progress {
        line: Some(query_line::start()),
        begun: false,
        next: 0,
        used: 0,
    }
}

// The query of a line that ends here.
fn query_of(line: Option<Line>) -> Option<Query>
    ensures { query_from result ≡ yet_from line [] }
{
    query_line::finish(line?)
}

// The line with one byte more.
fn fed(line: Option<Line>, byte: u8) -> Option<Line>
    ensures { (s : List ℕ) → yet_from result s ≡ yet_from line (byte ∷ s) }
{
    query_line::fed(line?, byte)
}

// Reads a newline: it ends the line at hand, whose answer is written.
fn end_line(
    book: &[u8],
    pack: &[u8],
    b: &Result<Schedule, Refused>,
    p: Progress,
    out: &mut [u8],
) -> Progress
    requires { Builds book.now pack.now b.now × HasLineRoom p out.old }
    ensures { LineEnded book.now pack.now out.old out.new p result }
{
    let used = query_answer::answer(book, pack, b, query_of(p.line), out, p.used);
    Progress {
        line: Some(query_line::start()),
        begun: false,
        next: p.next + 1,
        used,
    }
}

// Reads a byte that ends no line.
fn read_byte(p: Progress, byte: u8) -> Progress
    requires { (byte ≡ newline → ⊥) × (p.next < 2 ^ 64 - 1) }
    ensures { LineGoesOn p byte result }
{
    Progress {
        line: fed(p.line, byte),
        begun: true,
        next: p.next + 1,
        used: p.used,
    }
}

// Reads on in the piece `input`, to its end or until `out` has no room for one more line. Writes the answers from p's place on; no other byte changes.
pub fn feed(
    book: &[u8],
    pack: &[u8],
    b: &Result<Schedule, Refused>,
    p: Progress,
    input: &[u8],
    out: &mut [u8],
) -> Progress
    requires { Builds book.now pack.now b.now × ((p.used ≤ length out.old) × (p.next ≤ length input.now)) }
    ensures { FedBy book.now pack.now input.now out.old out.new p result }
{
    let mut r = p;
    for i in p.next..input.len() {
        if out.len() - r.used < LONGEST {
            return r;
        }
        if input[i] == NEWLINE {
            r = end_line(book, pack, b, r, out);
        } else {
            r = read_byte(r, input[i]);
        }
    }
    r
}

// The input ends: a last line without a newline counts. Writes its answer at the start of `out`; no other byte changes.
pub fn end(
    book: &[u8],
    pack: &[u8],
    b: &Result<Schedule, Refused>,
    p: Progress,
    out: &mut [u8],
) -> usize
    requires { Builds book.now pack.now b.now × (longest ≤ length out.old) }
    ensures { Ended book.now pack.now out.old out.new p result }
{
    if p.begun {
        return query_answer::answer(book, pack, b, query_of(p.line), out, 0);
    }
    0
}
