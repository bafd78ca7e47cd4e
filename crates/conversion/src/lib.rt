// Conversion of a capture from one form to the other: all of it is judged first, and only then is anything written. Document 02, section 5.
#![tactic(auto)]

ghost use Rattle.std.specs.Prelude.{◌≡◌, ◌≤◌, length, take, None};
ghost use Rattle.conversion.specs.Conversion.{bytes_written, convert_of, converting, first_not, held_by_old, refusal_number, other, passes, record_named};
ghost use Rattle.conversion.specs.Conversion.{rewritten, rewritten_all, written_into};
ghost use Rattle.conversion.specs.declared.Asked.TheVariants.{Good};
ghost use Rattle.lent.specs.Lent.{left, put_of};
ghost use Rattle.replay_capture.specs.Capture.{record_size, records_of};

use lent::Short;
use replay_capture::Form;

// What is asked of every record: that it is good, or that the old form can hold it.
#[derive(Clone, Copy)]
pub enum Asked {
    Good,
    Held,
}

// Why a capture is not converted: at a record that is not good, at one that the old form cannot hold, or for want of room.
#[derive(Clone, Copy, Debug, PartialEq, Eq)]
pub enum ConvertError {
    BadRecordAt(usize),
    NotHeldAt(usize),
    NoRoom,
}

pub fn other(form: Form) -> Form
    ensures { result ≡ other form }
{
    match form {
        Form::Old => Form::New,
        Form::New => Form::Old,
    }
}

fn is_held(form: Form, bytes: &[u8]) -> bool
    ensures { result ≡ held_by_old form bytes.now }
{
    if replay_capture::seat(form, bytes) != 0 {
        return false;
    }
    if replay_capture::tick(form, bytes) != 0 {
        return false;
    }
    lent::byte_at(bytes, 1) <= 6
}

fn passes(form: Form, asked: Asked, bytes: &[u8]) -> bool
    ensures { result ≡ passes form asked bytes.now }
{
    match asked {
        Asked::Good => replay_capture::is_good(form, bytes),
        Asked::Held => is_held(form, bytes),
    }
}

// The number, from 0, of the first record of a capture that does not pass, if there is one. The whole records come first, of whose size the compiler then makes
// use, and last a tail shorter than one; inlined, since a call for C knows its form, and so the size, and what is asked.
#[inline(always)]
pub fn first_not(form: Form, asked: Asked, capture: &[u8]) -> Option<usize>
    ensures { result ≡ first_not form asked (records_of (record_size form) capture.now) }
{
    let size = replay_capture::record_size(form);
    let whole = capture.chunks_exact(size);
    let tail = whole.remainder();
    for (n, record) in whole.enumerate() {
        if !passes(form, asked, record) {
            return Some(n);
        }
    }
    if tail.is_empty() {
        return None;
    }
    if passes(form, asked, tail) {
        return None;
    }
    Some(capture.len() / size)
}

// One record in the other form, and 00h to the size of the larger one.
fn rewritten(from: Form, bytes: &[u8]) -> [u8; 16]
    requires { length bytes.now ≡ record_size from }
    ensures { take (record_size (other from)) result ≡ rewritten from bytes.now }
{
    let mut laid = [0u8; 16];
    laid[0] = bytes[0];
    laid[1] = bytes[1];
    let start = replay_capture::head_size(from);
    let end = start + 6;
    let _ = lent::put(
        &mut laid,
        replay_capture::head_size(other(from)),
        &bytes[start..end],
    );
    laid
}

// The same into the output, from a place on.
fn rewrite(from: Form, bytes: &[u8], output: &mut [u8], at: usize) -> Result<(), Short>
    requires { length bytes.now ≡ record_size from }
    ensures { left result output.new ≡ put_of output.old at (rewritten from bytes.now) }
{
    let laid = rewritten(from, bytes);
    let n = replay_capture::record_size(other(from));
    lent::put(output, at, &laid[0..n])
}

// Every record of a capture that is good, into an output that has the room.
fn write_records(from: Form, capture: &[u8], output: &mut [u8]) -> Result<usize, ConvertError>
    requires { (first_not from Good (records_of (record_size from) capture.now) ≡ None)
        × (length (rewritten_all from (records_of (record_size from) capture.now)) ≤ length output.old) }
    ensures { converting result output.new ≡ written_into (rewritten_all from (records_of (record_size from) capture.now)) output.old }
{
    let size_from = replay_capture::record_size(from);
    let size_to = replay_capture::record_size(other(from));
    let mut written = 0;
    for record in capture.chunks(size_from) {
        let _ = rewrite(from, record, output, written);
        written = written + size_to;
    }
    Ok(written)
}

// A capture that is judged. The records are counted and not their bytes: no product can wrap.
fn write(from: Form, capture: &[u8], output: &mut [u8]) -> Result<usize, ConvertError>
    requires { first_not from Good (records_of (record_size from) capture.now) ≡ None }
    ensures { converting result output.new ≡ written_into (rewritten_all from (records_of (record_size from) capture.now)) output.old }
{
    let records = capture.len() / replay_capture::record_size(from);
    if output.len() / replay_capture::record_size(other(from)) < records {
        return Err(ConvertError::NoRoom);
    }
    write_records(from, capture, output)
}

// All records are judged good, then held, then the room; only then is anything written: so many bytes. Inlined for the same reason.
#[inline(always)]
pub fn convert(from: Form, capture: &[u8], output: &mut [u8]) -> Result<usize, ConvertError>
    ensures { converting result output.new ≡ convert_of from capture.now output.old }
{
    if let Some(n) = first_not(from, Asked::Good, capture) {
        return Err(ConvertError::BadRecordAt(n));
    }
    if let Some(n) = first_not(from, Asked::Held, capture) {
        return Err(ConvertError::NotHeldAt(n));
    }
    write(from, capture, output)
}

// The number of the refusal, 0 where there is none.
#[tactic(auto, unfolding(crate::specs::Conversion::refusal_number))]
pub fn number(converted: Result<usize, ConvertError>) -> u32
    ensures { result ≡ refusal_number converted }
{
    match converted {
        Ok(_) => 0,
        Err(ConvertError::BadRecordAt(_)) => replay_capture::BAD_RECORD,
        Err(ConvertError::NotHeldAt(_)) => 11,
        Err(ConvertError::NoRoom) => 12,
    }
}

// The number of the record that is named, 0 where none is.
#[tactic(auto, unfolding(crate::specs::Conversion::record_named))]
pub fn record_named(converted: Result<usize, ConvertError>) -> usize
    ensures { result ≡ record_named converted }
{
    match converted {
        Err(ConvertError::BadRecordAt(n) | ConvertError::NotHeldAt(n)) => n,
        Ok(_) | Err(ConvertError::NoRoom) => 0,
    }
}

#[tactic(auto, unfolding(crate::specs::Conversion::bytes_written))]
pub fn bytes_written(converted: Result<usize, ConvertError>) -> usize
    ensures { result ≡ bytes_written converted }
{
    converted.unwrap_or(0)
}
