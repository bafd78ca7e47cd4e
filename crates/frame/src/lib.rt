// The frame layer of document 01, "Frames", and source document 000, chapter 2: what a frame is, SUM, the collector, the
// judgement of a complete frame, and the writing and reading of frames. Chip and dock rest on it and see only what it promises.
#![tactic(auto)]

ghost use Rattle.std.specs.Prelude.{◌≡◌, ◌+◌, ◌≤◌};
ghost use Rattle.frame.specs.Frame.{header_byte, footer_byte, len_byte, counted, full, is_frame, lacking_of, payload};

pub mod collector;
pub mod judgement;
pub mod sum;
pub mod wire;

// What surrounds a payload (header, LEN, SUM and footer), where it begins, and how long a frame is at most.
pub const OVERHEAD: usize = 4;

pub const PAYLOAD_AT: usize = 2;

pub const LONGEST: usize = 260;

// What a frame has beside its payload before its last byte comes.
pub const BEFORE_LAST: usize = OVERHEAD - 1;

#[derive(Clone, Copy)]
pub enum Header {
    Command,
    Data,
}

#[derive(Clone, Copy)]
pub enum Footer {
    Last,
    More,
}

impl Header {
    pub fn byte(self) -> u8
        ensures { result ≡ header_byte self }
    {
        match self {
            Header::Command => 0x01,
            Header::Data => 0x02,
        }
    }
}

impl Footer {
    pub fn byte(self) -> u8
        ensures { result ≡ footer_byte self }
    {
        match self {
            Footer::Last => 0x03,
            Footer::More => 0x17,
        }
    }
}

// The LEN of so many bytes; 256 is sent as 00h.
pub fn len_byte(n: usize) -> u8
    ensures { result ≡ len_byte n }
{
    (n % 256) as u8
}

// How many bytes a LEN counts.
#[tactic(auto, using(crate::proofs::Laws::Frame::counts))]
pub fn counted(len: u8) -> usize
    ensures { result ≡ counted len }
{
    match len {
        0x00 => 256,
        _ => usize::from(len),
    }
}

// How many bytes a frame of this LEN has, at most 260.
#[tactic(auto, using(crate::proofs::Laws::Frame::counts))]
fn needed(len: u8) -> usize
    ensures { (result ≡ counted len + 4) × (counted len ≤ 256) }
{
    counted(len) + OVERHEAD
}

// Whether so many bytes are as many as a frame of this LEN needs.
#[tactic(auto, using(crate::proofs::Laws::Frame::full_is))]
pub fn is_full(count: usize, len: u8) -> bool
    ensures { result ≡ full count len }
{
    2 <= count && needed(len) <= count
}

// How many of the bytes still to come are added without completing the frame, its header and LEN having come.
#[tactic(auto, using(crate::proofs::Laws::Frame::lacks_by_tests))]
pub fn lacking(count: usize, len: u8, rest: usize) -> usize
    ensures { result ≡ lacking_of count len rest }
{
    if count < 2 {
        return 0;
    }
    rest.min((counted(len) + BEFORE_LAST).saturating_sub(count))
}

#[tactic(auto, using(crate::proofs::Laws::Frame::frame_is))]
pub fn is_frame(bytes: &[u8]) -> bool
    ensures { result ≡ is_frame bytes.now }
{
    2 <= bytes.len() && bytes.len() == needed(bytes[1])
}

// The payload of a complete frame; what is too short to be one has none.
#[tactic(auto, unfolding(crate::specs::Frame::payload))]
pub fn payload(bytes: &[u8]) -> &[u8]
    ensures { result.now ≡ payload bytes.now }
{
    lent::span(bytes, PAYLOAD_AT, bytes.len().saturating_sub(OVERHEAD))
}
