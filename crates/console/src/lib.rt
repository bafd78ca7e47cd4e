// What programs share: their arguments, reading until a buffer is full, messages, and the progress of a long capture on a terminal.
#![tactic(auto)]

ghost use Rattle.std.specs.Prelude.{◌≡◌, ◌⊎◌, ◌+◌, ◌-◌, ◌%◌, ◌^◌, ◌<◌, ◌≤◌, ◌&&◌, nat_lt, if◌then◌else◌, true, false, length, take, IsNone, IfOk, OnErr};
ghost use Rattle.std.specs.Io.{ReadsAtMost};
ghost use Rattle.std.specs.Io.KnownBytes.{Keeps, Consumes, IsAtEnd};

use std::env::FillError;
use std::io;
use std::io::{ErrorKind, IsTerminal, Read};
use std::rt::Env;

// The system's numbers for a name that is too long, and for text that is not UTF-8.
const NAME_TOO_LONG: i32 = 36;

const NOT_TEXT: i32 = 84;

// The argument at a place, if there is one. std names a file by text, so an argument that is not UTF-8 is refused.
pub fn argument<'a>(
    rt: &impl Env,
    i: usize,
    room: &'a mut [u8; 4096],
) -> io::Result<Option<&'a str>> {
    match rt.arg(i, room) {
        Ok(n) => match std::str::from_utf8(&room[..n]) {
            Ok(word) => Ok(Some(word)),
            Err(_) => Err(io::Error::from_raw_os_error(NOT_TEXT)),
        },
        Err(FillError::NotPresent) => Ok(None),
        Err(FillError::TooLong) => Err(io::Error::from_raw_os_error(NAME_TOO_LONG)),
    }
}

// Whether there is an argument at a place.
pub fn has_argument(rt: &impl Env, i: usize) -> bool {
    let mut room = [0u8; 1];
    !matches!(rt.arg(i, &mut room), Err(FillError::NotPresent))
}

// How many bytes were read, and what ended the reading, where it did not go well.
#[derive(Clone, Copy)]
pub struct Filled {
    pub n: usize,
    pub error: Option<io::Error>,
}

// One read, and again as often as a signal cuts it short.
fn read_some<R: Read>(from: &mut R, buf: &mut [u8]) -> io::Result<usize>
    ensures bound { ReadsAtMost result buf.new }
    ensures ok { IfOk result (λ n. Consumes (R.remaining from.old) (R.remaining from.new) (take n buf.new)) }
    ensures end { IfOk result (λ n. n ≡ 0 → 0 < length buf.old → IsAtEnd (R.remaining from.new)) }
    ensures err { OnErr result (Keeps (R.remaining from.old) (R.remaining from.new)) }
{
    for _ in 0..u64::MAX {
        match from.read(buf) {
            Ok(n) => return Ok(n),
            Err(e) => {
                if e.kind() != ErrorKind::Interrupted {
                    return Err(e);
                }
            }
        }
    }
    Err(io::Error::from(ErrorKind::Interrupted))
}

// Reads until the buffer is full or the input ends, so that only the last buffer can end within a record.
pub fn fill<R: Read>(from: &mut R, buf: &mut [u8]) -> Filled
    ensures within { result.n ≤ length buf.new }
    ensures bytes { Consumes (R.remaining from.old) (R.remaining from.new) (take result.n buf.new) }
    ensures whole { IsNone result.error → result.n < length buf.new → IsAtEnd (R.remaining from.new) }
{
    let mut n = 0;
    while n < buf.len() {
        match read_some(from, &mut buf[n..]) {
            Ok(0) => return Filled { n, error: None },
            Ok(more) => n += more,
            Err(e) => return Filled { n, error: Some(e) },
        }
    }
    Filled { n, error: None }
}

// A message on standard error that begins with the program's name: what failed, and why, in the system's words. `io::Error` puts the system's number behind them.
pub fn fail(rt: &(impl Eprint + Alloc), program: &str, what: &str, error: io::Error) {
    let _ = match format!(in rt.alloc(); "{error}") {
        Ok(text) => match text.as_str().split_once(" (os error ") {
            Some((why, _)) => eprintln!(rt; "{program}: {what}: {why}"),
            None => eprintln!(rt; "{program}: {what}: {text}"),
        },
        Err(_) => eprintln!(rt; "{program}: {what}: {error}"),
    };
}

// The line on standard error that says how far a long capture is: whether it stands there, whether lines come to a terminal on standard output too, where it
// would stand in their way, and the number of records at which it is written next.
#[derive(Clone, Copy)]
pub struct Progress {
    pub stands: bool,
    pub is_among_lines: bool,
    pub next: u64,
}

// How many records go by from one number to the next.
const PACE: u64 = 65536;

// Where standard error is no terminal, the next number is one that no capture reaches: so a turn of the loop compares once, and asks nothing.
pub fn no_progress(output: &impl IsTerminal, errors: &impl IsTerminal) -> Progress
    ensures stands { result.stands ≡ false }
    ensures next { (result.next ≡ PACE) ⊎ (result.next ≡ 2 ^ 64 - 1) }
{
    Progress {
        stands: false,
        is_among_lines: output.is_terminal(),
        next: if errors.is_terminal() { PACE } else { u64::MAX },
    }
}

// The line goes over the one before it, which is never the longer one, and stays open: so the next can go over it. It begins with the program's name.
pub fn show_progress(rt: &impl Eprint, progress: Progress, name: &str, records: u64) -> Progress
    ensures early { records < progress.next → result ≡ progress }
    ensures shown { progress.next ≤ records → result ≡ record progress { stands = true; next = (records + PACE) % 2 ^ 64 } }
{
    if records < progress.next {
        return progress;
    }
    let _ = eprint!(rt; "\r{name}: {records} records");
    Progress {
        stands: true,
        next: records.wrapping_add(PACE),
        ..progress
    }
}

// Goes back to the start of the line and clears it, so that what is written next stands there alone.
pub fn erase(rt: &impl Eprint, progress: Progress) -> Progress
    ensures { result ≡ record progress { stands = false } }
{
    if !progress.stands {
        return progress;
    }
    let _ = eprint!(rt; "\r\x1B[K");
    Progress {
        stands: false,
        ..progress
    }
}

// Makes way for lines, where there are any and they come to a terminal; where they go elsewhere, the line can stay.
pub fn make_way(rt: &impl Eprint, progress: Progress, bytes: usize) -> Progress
    ensures { result ≡ (if progress.is_among_lines && nat_lt 0 bytes then record progress { stands = false } else progress) }
{
    if progress.is_among_lines && 0 < bytes {
        return erase(rt, progress);
    }
    progress
}

// A message in place of the progress.
pub fn say(rt: &impl Eprint, progress: Progress, message: &str) {
    erase(rt, progress);
    let _ = eprint!(rt; "{message}");
}
