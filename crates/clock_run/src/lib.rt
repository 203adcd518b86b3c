// The program's work. Reads book.bin and zones.bin from the working directory, and query lines from standard input; writes a line for each.
// The book is built once. Input and output go in pieces, and what is kept of a line does not grow with it.
//
// A read or a write that the system asks to try again is tried again (crate pieces). One that fails otherwise ends the work: nothing is written
// behind a write that failed, a line that was read in part is not answered, and a line on standard error says what failed.
#![tactic(auto)]

ghost use Rattle.std.specs.Prelude.{◌≤◌, length, IfOk, IfErr};
ghost use Rattle.std.specs.Counts.{IsPrefixLen};
ghost use Rattle.answer_line.specs.Placed.{longest};
ghost use Rattle.build.specs.Read.{Builds};
ghost use Rattle.model.specs.Build.{build};
ghost use Rattle.clock_run.specs.Runs.{Passes, PassFails, AnswersAll, AnswersFront};

use query_stream::Progress;
use refusal::Refused;
use rule::Schedule;
use std::io::{ErrorKind, Input, Read, Write};
use std::process::ExitCode;
use std::rt::Files;
use std::{fmt, fs, io};

// The most bytes of a book or a pack, and the room for them and for one byte more.
const MOST_BYTES: usize = 65536;

const FILE_ROOM: usize = 65537;

// The bytes of a piece of the input, and of a piece of the output.
const PIECE: usize = 65536;

// Which stream failed, and why.
#[derive(Debug, Drop)]
pub enum Failure {
    Input(io::Error),
    Output(io::Error),
}

impl fmt::Display for Failure {
    fn fmt<W: fmt::Write>(&self, f: &mut fmt::Formatter<W>) -> fmt::Result {
        match self {
            Failure::Input(e) => write!(f, "clock: standard input: {e}"),
            Failure::Output(e) => write!(f, "clock: standard output: {e}"),
        }
    }
}

// ---- reading the files

// Writes a line to standard error that says what failed and why. Where that fails too there is nobody to tell.
fn tell<E: Eprint>(rt: &E, what: &str, error: &io::Error) {
    let _ = eprintln!(rt; "{what}: {error}");
}

// Reads a file to the start of buf, until it ends or buf is full, and answers how many bytes these are. A file that cannot be read counts as empty,
// and standard error has a line that says why.
fn read_file<E: Eprint, F: Read>(rt: &E, path: &str, file: &mut F, buf: &mut [u8]) -> usize
    ensures { IsPrefixLen result buf.new }
{
    match pieces::read_full(file, buf) {
        Ok(n) => n,
        Err(e) => {
            tell(rt, path, &e);
            0
        }
    }
}

// Reads a file to the start of buf and answers how many bytes it has, 0 where it is missing or has more than 65,536 bytes. buf has room for one
// byte more, to tell. Where the file is there and cannot be opened, standard error has a line that says why.
fn load<R: Files + Eprint>(rt: &R, path: &str, buf: &mut [u8]) -> usize
    ensures { IsPrefixLen result buf.new }
{
    match fs::open(rt, path) {
        Ok(mut file) => {
            let n = read_file(rt, path, &mut file, buf);
            if n > MOST_BYTES { 0 } else { n }
        }
        Err(e) => {
            if e.kind() != ErrorKind::NotFound {
                tell(rt, path, &e);
            }
            0
        }
    }
}

// ---- queries and answers

// Reads a piece to its end, and writes the answers, as often as `out` is full.
fn pass<W: Write>(
    book: &[u8],
    pack: &[u8],
    b: &Result<Schedule, Refused>,
    p: Progress,
    input: &[u8],
    out: &mut [u8],
    output: &mut W,
) -> io::Result<Progress>
    requires { Builds book.now pack.now b.now × (longest ≤ length out.old) }
    ensures ok { IfOk result (λ r. Passes (build book.now pack.now) input.now (W.contents output.old) (W.contents output.new) p r) }
    ensures err { IfErr result (λ _. PassFails (build book.now pack.now) input.now (W.contents output.old) (W.contents output.new) p) }
{
    let mut r = p;
    r.next = 0;
    while r.next < input.len() {
        r.used = 0;
        r = query_stream::feed(book, pack, b, r, input, out);
        pieces::write_all(output, &out[..r.used])?;
    }
    Ok(r)
}

// Reads to the end of the input, or until reading or writing fails, and writes the answers.
pub fn answer_all<R: Read, W: Write>(
    book: &[u8],
    pack: &[u8],
    input: &mut R,
    output: &mut W,
) -> Result<(), Failure>
    ensures ok { IfOk result (λ _. AnswersAll (build book.now pack.now) (R.remaining input.old) (W.contents output.old) (W.contents output.new)) }
    ensures err { IfErr result (λ _. AnswersFront (build book.now pack.now) (R.remaining input.old) (W.contents output.old) (W.contents output.new)) }
{
    let b = build::build(book, pack);
    let mut piece = [0u8; PIECE];
    let mut out = [0u8; PIECE];
    let mut p = query_stream::begin();
    for _ in 0..u64::MAX {
        let n = match pieces::read_some(input, &mut piece) {
            Ok(n) => n,
            Err(e) => return Err(Failure::Input(e)),
        };
        if n == 0 {
            let k = query_stream::end(book, pack, &b, p, &mut out);
            return match pieces::write_all(output, &out[..k]) {
                Ok(()) => Ok(()),
                Err(e) => Err(Failure::Output(e)),
            };
        }
        p = match pass(book, pack, &b, p, &piece[..n], &mut out, output) {
            Ok(r) => r,
            Err(e) => return Err(Failure::Output(e)),
        };
    }
    Err(Failure::Input(io::Error::from(ErrorKind::TimedOut)))
}

// The whole program. Answers whether reading and writing went well.
pub fn run<R: Files + Input + Print + Eprint>(rt: &R) -> ExitCode {
    let mut book = [0u8; FILE_ROOM];
    let mut pack = [0u8; FILE_ROOM];
    let b = load(rt, "book.bin", &mut book);
    let p = load(rt, "zones.bin", &mut pack);
    let mut input = rt.reader();
    let mut output = io::writer(rt);
    match answer_all(&book[..b], &pack[..p], &mut input, &mut output) {
        Ok(()) => ExitCode::SUCCESS,
        Err(e) => {
            let _ = eprintln!(rt; "{e}");
            ExitCode::FAILURE
        }
    }
}
