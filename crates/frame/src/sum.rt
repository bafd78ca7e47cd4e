// SUM by wrapping subtraction, the borrow dropped on purpose: at 8 bits for a frame, at 16 for command B0h.
ghost use Rattle.std.specs.Prelude.{◌≡◌};
ghost use Rattle.frame.specs.Sum.{less, less_all};

#[tactic(auto, using(crate::proofs::Laws::Sum::less_is))]
pub fn less8(sum: u8, byte: u8) -> u8
    ensures { result ≡ less 256 sum byte }
{
    sum.wrapping_sub(byte)
}

#[tactic(auto, using(crate::proofs::Laws::Sum::less_is))]
pub fn less16(sum: u16, byte: u8) -> u16
    ensures { result ≡ less 65536 sum byte }
{
    sum.wrapping_sub(u16::from(byte))
}

pub fn sum8(start: u8, bytes: &[u8]) -> u8
    ensures { result ≡ less_all 256 start bytes.now }
{
    bytes.iter().fold(start, |sum, &b| less8(sum, b))
}

pub fn sum16(start: u16, bytes: &[u8]) -> u16
    ensures { result ≡ less_all 65536 start bytes.now }
{
    bytes.iter().fold(start, |sum, &b| less16(sum, b))
}
