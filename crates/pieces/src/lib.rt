// Reading and writing in pieces, over any reader and any writer.
//
// A call that the system asks to try again is tried again, and the processor is given to others in between: one that a signal interrupts, one on a
// stream that does not block and has nothing to give or no room, and a write that takes nothing and names no error.
#![tactic(auto)]

ghost use Rattle.std.specs.Prelude.{◌<◌, IfOk};
ghost use Rattle.std.specs.Io.{ReadsAtMost, WritesAtMost};
ghost use Rattle.std.specs.Io.KnownBytes.{ReadConsumes, WriteAppends};
ghost use Rattle.pieces.specs.Written.{AppendsFront, ReadsFull};

use std::io::{ErrorKind, Read, Write};
use std::{io, thread};

// Is the call that failed to be tried again?
fn is_again(error: &io::Error) -> bool {
    matches!(error.kind(), ErrorKind::Interrupted | ErrorKind::WouldBlock)
}

// What a call fails with that was tried again too often. No run comes so far: a proved loop has to end, and nothing says that bytes come.
fn tried_too_often() -> io::Error {
    io::Error::from(ErrorKind::TimedOut)
}

// Reads at least one byte to the start of buf and answers how many; 0 at the end.
pub fn read_some<R: Read>(input: &mut R, buf: &mut [u8]) -> io::Result<usize>
    ensures bound { ReadsAtMost result buf.new }
    ensures bytes { ReadConsumes (R.remaining input.old) (R.remaining input.new) result buf.new }
{
    for _ in 0..u64::MAX {
        match input.read(buf) {
            Ok(n) => return Ok(n),
            Err(e) => {
                if !is_again(&e) {
                    return Err(e);
                }
            }
        }
        thread::yield_now();
    }
    Err(tried_too_often())
}

// Reads to the start of buf, until the input ends or buf is full, and answers how many bytes these are.
pub fn read_full<R: Read>(input: &mut R, buf: &mut [u8]) -> io::Result<usize>
    ensures bound { ReadsAtMost result buf.new }
    ensures bytes { ReadsFull (R.remaining input.old) (R.remaining input.new) result buf.new }
{
    let mut done: usize = 0;
    while done < buf.len() {
        let n = read_some(input, &mut buf[done..])?;
        if n == 0 {
            return Ok(done);
        }
        done += n;
    }
    Ok(done)
}

// Writes at least one byte of buf and answers how many.
fn write_some<W: Write>(output: &mut W, buf: &[u8]) -> io::Result<usize>
    ensures bound { WritesAtMost result buf.now }
    ensures onward { IfOk result (λ n. 0 < n) }
    ensures bytes { WriteAppends (W.contents output.old) (W.contents output.new) result buf.now }
{
    for _ in 0..u64::MAX {
        match output.write(buf) {
            Ok(n) => {
                if n > 0 {
                    return Ok(n);
                }
            }
            Err(e) => {
                if !is_again(&e) {
                    return Err(e);
                }
            }
        }
        thread::yield_now();
    }
    Err(tried_too_often())
}

// Writes all of buf. Where a write fails nothing is written behind it.
pub fn write_all<W: Write>(output: &mut W, buf: &[u8]) -> io::Result<()>
    ensures { AppendsFront (W.contents output.old) (W.contents output.new) result buf.now }
{
    let mut done: usize = 0;
    while done < buf.len() {
        let n = write_some(output, &buf[done..])?;
        done += n;
    }
    Ok(())
}
