// Capture records, of the old form and of the new: what a good one is, its seat and its tick, and what it is to a replay. Document 01, "Replay", and 02, section 5.
#![tactic(auto)]

ghost use Rattle.std.specs.Prelude.{◌≡◌, ◌+◌, ◌≤◌, length};
ghost use Rattle.replay_capture.specs.Capture.{carried_bytes, data_size, good_count, head_size, good_record, record_end, record_of, record_size};
ghost use Rattle.replay_capture.specs.Capture.{seat_of, spare_of, tick_of, unused};

// Document 01's records, and the wider ones of 02, section 5.
#[derive(Clone, Copy)]
pub enum Form {
    Old,
    New,
}

// What a good record is to the replay of seat 0: a gap, so many bytes, or the other seat's.
#[derive(Clone, Copy)]
pub enum Record {
    GapRecord,
    BytesRecord(usize),
    OtherSeat,
}

// The record is not good.
#[derive(Clone, Copy, Debug, PartialEq, Eq)]
pub struct BadRecord;

// The refusal of a bad record, wherever one is told.
pub const BAD_RECORD: u32 = 10;

pub fn record_size(form: Form) -> usize
    ensures { result ≡ record_size form }
{
    match form {
        Form::Old => 8,
        Form::New => 16,
    }
}

// How many bytes come before the data.
pub fn head_size(form: Form) -> usize
    ensures { result ≡ head_size form }
{
    match form {
        Form::Old => 2,
        Form::New => 8,
    }
}

pub fn data_size(form: Form) -> usize
    ensures { result ≡ data_size form }
{
    record_size(form) - head_size(form)
}

pub fn seat(form: Form, bytes: &[u8]) -> u8
    ensures { result ≡ seat_of form bytes.now }
{
    match form {
        Form::Old => 0,
        Form::New => lent::byte_at(bytes, 2),
    }
}

fn spare(form: Form, bytes: &[u8]) -> u8
    ensures { result ≡ spare_of form bytes.now }
{
    match form {
        Form::Old => 0x00,
        Form::New => lent::byte_at(bytes, 3),
    }
}

pub fn tick(form: Form, bytes: &[u8]) -> u32
    ensures { result ≡ tick_of form bytes.now }
{
    match form {
        Form::Old => 0,
        Form::New => u32::from_le_bytes(numbers::bytes_at(bytes, 4)),
    }
}

fn is_good_count(form: Form, kind: u8, n: usize) -> bool
    ensures { result ≡ good_count form kind n }
{
    if kind == 0x00 {
        return n == 0;
    }
    if kind == 0x01 {
        return 1 <= n && n <= data_size(form);
    }
    false
}

fn is_unused(form: Form, n: usize, bytes: &[u8]) -> bool
    requires { head_size form + n ≤ length bytes.now }
    ensures { result ≡ unused form n bytes.now }
{
    let at = head_size(form) + n;
    lent::are_all(&bytes[at..], 0x00)
}

// Whether the bytes are one good record; another number of them than its size is none.
pub fn is_good(form: Form, bytes: &[u8]) -> bool
    ensures { result ≡ good_record form bytes.now }
{
    if bytes.len() != record_size(form) {
        return false;
    }
    let n = lent::byte_at(bytes, 1) as usize;
    if !is_good_count(form, lent::byte_at(bytes, 0), n) {
        return false;
    }
    if 1 < seat(form, bytes) {
        return false;
    }
    if spare(form, bytes) != 0x00 {
        return false;
    }
    is_unused(form, n, bytes)
}

pub fn read(form: Form, bytes: &[u8]) -> Result<Record, BadRecord>
    ensures { result ≡ record_of form bytes.now }
{
    if !is_good(form, bytes) {
        return Err(BadRecord);
    }
    if seat(form, bytes) != 0 {
        return Ok(Record::OtherSeat);
    }
    if lent::byte_at(bytes, 0) == 0x00 {
        return Ok(Record::GapRecord);
    }
    Ok(Record::BytesRecord(lent::byte_at(bytes, 1) as usize))
}

// The bytes that a record carries, where they lie.
pub fn carried(form: Form, n: usize, bytes: &[u8]) -> &[u8]
    ensures { result.now ≡ carried_bytes form n bytes.now }
{
    lent::span(bytes, head_size(form), n)
}

// Where the record that begins at a place ends, in a capture of len bytes.
pub fn record_end(form: Form, at: usize, len: usize) -> usize
    ensures { result ≡ record_end (record_size form) at len }
{
    let size = record_size(form);
    if len < size {
        return len;
    }
    if len - size < at {
        return len;
    }
    at + size
}
