// The judgement of a complete frame, in the order of document 01, "Frames", and its status on the wire; its fault and the place of it: document 02, §4.
ghost use Rattle.std.specs.Prelude.{◌≡◌};
ghost use Rattle.frame.specs.Judgement.{fault_of, fitting, is_good, judge_of, status_of};

use super::{Footer, sum};

// A wrong footer or SUM has its place in the frame, counted from the header; a wrong first byte is a fault of replies alone.
#[derive(Clone, Copy)]
pub enum Judgement {
    Good,
    WrongFooter(u16),
    WrongSum(u16),
    UnfitLength,
    WrongFirst,
}

// A fault in numbers, and the place of its byte; both 0 where there is none.
#[derive(Clone, Copy)]
pub struct Fault {
    pub number: u8,
    pub place: u16,
}

impl Judgement {
    pub fn is_good(self) -> bool
        ensures { result ≡ is_good self }
    {
        matches!(self, Judgement::Good)
    }

    pub fn status(self) -> u8
        ensures { result ≡ status_of self }
    {
        match self {
            Judgement::Good => 0x06,
            Judgement::WrongSum(_) => 0x07,
            Judgement::WrongFooter(_) | Judgement::UnfitLength | Judgement::WrongFirst => 0x15,
        }
    }

    pub fn fault(self) -> Fault
        ensures { result ≡ fault_of self }
    {
        let (number, place) = match self {
            Judgement::Good => (0, 0),
            Judgement::WrongFooter(at) => (1, at),
            Judgement::WrongSum(at) => (2, at),
            Judgement::UnfitLength => (3, 1),
            Judgement::WrongFirst => (4, 0),
        };
        Fault { number, place }
    }
}

// Given the footer that the state expects.
#[tactic(auto, using(crate::proofs::Laws::Judgement::judged))]
pub fn judge(footer: Footer, bytes: &[u8]) -> Judgement
    ensures { result ≡ judge_of footer bytes.now }
{
    let n = bytes.len();
    if !super::is_frame(bytes) {
        return Judgement::UnfitLength;
    }
    if bytes[n - 1] != footer.byte() {
        return Judgement::WrongFooter((n - 1) as u16);
    }
    if bytes[n - 2] != sum::sum8(0x00, &bytes[1..n - 2]) {
        return Judgement::WrongSum((n - 2) as u16);
    }
    Judgement::Good
}

// Given the footer and the length that the state expects.
#[tactic(auto, using(crate::proofs::Laws::Judgement::fitted))]
pub fn judge_fit(footer: Footer, length: usize, bytes: &[u8]) -> Judgement
    ensures { result ≡ fitting length bytes.now (judge_of footer bytes.now) }
{
    let j = judge(footer, bytes);
    if j.is_good() && bytes.len() - super::OVERHEAD != length {
        return Judgement::UnfitLength;
    }
    j
}
