// Standard input and output of the program, which someone may have made non-blocking. A call that was interrupted or would block is neither the
// end of the input nor a failed write: it is made again after a pause. What is made of a call's answer is proved, and so is which bytes are moved,
// for every reader whose bytes are known and every writer that tells what it holds. No contract says what the system's own streams give and take.
#![tactic(auto)]

ghost use Rattle.std.specs.Prelude.{◌≡◌, ◌-◌, ◌<◌, ◌≤◌, length, take, drop, true, false, ℕ};
ghost use Rattle.std.specs.IoError.{error_kind};
ghost use Rattle.std.specs.Counts.{IsPrefixLen};
ghost use Rattle.std.specs.Io.KnownBytes.{Appends, Consumes, IsAtEnd, ReadConsumes, WriteAppends};
ghost use Rattle.streams.specs.Streams.{after_write, delivered, failed_call, Moved, moved_bytes, Settled, Stopped, transient_error, tries_again, written};

use arrayvec::ArrayString;
use std::fmt::Write as _;
use std::io::{ErrorKind, Read, Write};
use std::rt::Clock;
use std::time::Duration;
use std::{io, thread};

// A proved loop has to end, and nothing says that a stream that would block is ever ready. No run makes so many pauses.
const MOST_PAUSES: u64 = u64::MAX;

// How a read ended: what its last call answered, how many pauses were made, and whether it failed for good. It is no `Result`: `Settled` speaks of
// all three. It has no equality, since an `io::Error` has none.
#[derive(Clone, Copy, Debug)]
pub struct ReadOutcome {
    pub last: io::Result<usize>,
    pub pauses: u64,
    pub failed: bool,
}

// How a write ended: where its last call began, what that call answered, how many pauses were made, and whether all bytes were written.
// `Stopped` speaks of all four.
#[derive(Clone, Copy, Debug)]
pub struct WriteOutcome {
    pub at: usize,
    pub last: io::Result<usize>,
    pub pauses: u64,
    pub whole: bool,
}

// What a write call leaves to do.
#[derive(Clone, Copy, Debug, PartialEq, Eq)]
pub enum Progress {
    // Nothing: all bytes are written.
    Done,
    // The bytes from this position on, at once.
    Rest(usize),
    // The same bytes, after a pause.
    Later,
    // Nothing: it failed for good.
    Failed,
}

// About a millisecond.
fn pause(clock: &impl Clock) {
    thread::sleep(clock, Duration::from_millis(1));
}

fn transient(error: &io::Error) -> bool
    ensures { result ≡ transient_error error.now }
{
    matches!(error.kind(), ErrorKind::Interrupted | ErrorKind::WouldBlock)
}

// Whether a call is to be made again, after so many pauses: it was interrupted, or would block.
fn tries_again(last: &io::Result<usize>, pauses: u64) -> bool
    ensures { result ≡ tries_again last.now pauses }
{
    last.is_err_and(|error| pauses < MOST_PAUSES && transient(&error))
}

// How many of the bytes of `part` a call moved that was given them: none where it failed.
pub fn count(last: &io::Result<usize>, part: &[u8]) -> usize
    ensures in_bounds { IsPrefixLen result part.now }
    ensures value { result ≡ moved_bytes last.now (length part.now) }
{
    last.map_or(0, |count| count.min(part.len()))
}

// What a write call of the bytes from `at` on leaves to do.
fn after_write(bytes: &[u8], at: usize, last: &io::Result<usize>, pauses: u64) -> Progress
    requires { at ≤ length bytes.now }
    ensures { result ≡ after_write at (length bytes.now) last.now pauses }
{
    let next = at + count(last, &bytes[at..]);
    if next == bytes.len() {
        return Progress::Done;
    }
    if at < next {
        return Progress::Rest(next);
    }
    if !tries_again(last, pauses) {
        return Progress::Failed;
    }
    Progress::Later
}

fn read_once<R: Read>(input: &mut R, chunk: &mut [u8]) -> io::Result<usize>
    ensures moved { Moved (length chunk.old) result }
    ensures bytes { ReadConsumes (R.remaining input.old) (R.remaining input.new) result chunk.new }
{
    input.read(chunk)
}

fn write_once<W: Write>(output: &mut W, bytes: &[u8], at: usize) -> io::Result<usize>
    requires { at ≤ length bytes.now }
    ensures moved { Moved (length bytes.now - at) result }
    ensures bytes { WriteAppends (W.contents output.old) (W.contents output.new) result (drop at bytes.now) }
{
    output.write(&bytes[at..])
}

// What stands before the error's number, which `Display` puts in brackets behind its text.
fn text_alone(text: &str) -> &str
    ensures { result.now ≡ take (length result.now) text.now }
{
    text.split_once(" (os error ")
        .map_or(text, |(front, _)| front)
}

// A line on standard error says which stream failed, and why. A call that took nothing and told no error counts as failed too; the system words that
// as its error 0. Each of the system's texts has room in 128 bytes. Where the line cannot be written, there is nowhere to say so.
fn tell(errors: &impl Eprint, stream: &str, last: io::Result<usize>) {
    let error = last.err().unwrap_or(io::Error::from_raw_os_error(0));
    let mut text = ArrayString::<128>::new();
    let _ = write!(text, "{error}");
    let words = text_alone(text.as_str());
    let _ = eprintln!(errors; "session: {stream}: {words}");
}

// Where a read failed for good, a line on standard error says why.
fn read_ended(errors: &impl Eprint, last: io::Result<usize>, pauses: u64) -> ReadOutcome
    ensures { result ≡ record { last = last; pauses = pauses; failed = failed_call last } }
{
    let failed = last.is_err();
    if failed {
        tell(errors, "standard input", last);
    }
    ReadOutcome {
        last,
        pauses,
        failed,
    }
}

// Reads once, as soon as there is something to read or the input has ended.
pub fn read<R: Read, T: Clock + Eprint>(input: &mut R, rt: &T, chunk: &mut [u8]) -> ReadOutcome
    ensures settled { Settled (length chunk.old) result }
    ensures came { Consumes (R.remaining input.old) (R.remaining input.new) (delivered result.last chunk.new) }
    ensures end { length (delivered result.last chunk.new) ≡ 0 → result.failed ≡ false → 0 < length chunk.old →
        IsAtEnd (R.remaining input.new) }
{
    let mut last = read_once(input, chunk);
    let mut pauses = 0;
    // No `for`: `Settled` speaks of the pauses made, and a loop over them would make a read more than it tells of.
    while tries_again(&last, pauses) {
        pause(rt);
        pauses += 1;
        last = read_once(input, chunk);
    }
    read_ended(rt, last, pauses)
}

// Where a write failed for good, a line on standard error says why.
fn write_failed(
    errors: &impl Eprint,
    at: usize,
    last: io::Result<usize>,
    pauses: u64,
) -> WriteOutcome
    ensures { result ≡ record { at = at; last = last; pauses = pauses; whole = false } }
{
    tell(errors, "standard output", last);
    WriteOutcome {
        at,
        last,
        pauses,
        whole: false,
    }
}

// Writes all bytes, in as many calls as it takes, the first of them on the whole. Of no bytes it makes no call.
pub fn write<W: Write, T: Clock + Eprint>(output: &mut W, rt: &T, bytes: &[u8]) -> WriteOutcome
    ensures stopped { Stopped (length bytes.now) result }
    ensures bytes { Appends (W.contents output.old) (W.contents output.new) (take (written (length bytes.now) result) bytes.now) }
    ensures whole { result.whole ≡ true → Appends (W.contents output.old) (W.contents output.new) bytes.now }
{
    let mut at = 0;
    let mut pauses = 0;
    if bytes.is_empty() {
        return WriteOutcome {
            at,
            last: Ok(0),
            pauses,
            whole: true,
        };
    }
    // No `for`: a write ends at its bytes' end or at a failure, and the pauses counted are told (`Stopped`).
    loop {
        let last = write_once(output, bytes, at);
        match after_write(bytes, at, &last, pauses) {
            Progress::Done => {
                return WriteOutcome {
                    at,
                    last,
                    pauses,
                    whole: true,
                };
            }
            Progress::Rest(next) => at = next,
            Progress::Later => {
                pause(rt);
                pauses += 1;
            }
            Progress::Failed => return write_failed(rt, at, last, pauses),
        }
    }
}
