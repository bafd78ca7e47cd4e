// Bytes as a line of upper-case hex. Document 01, "Replay": "Each reply frame is one line of hex".
#![tactic(auto)]

ghost use Rattle.std.specs.Prelude.{◌≡◌, ◌<◌};
ghost use Rattle.lent.specs.Lent.{left, put_of};
ghost use Rattle.replay_hex.specs.Hex.{digit_of, line_of};
ghost use Rattle.replay_hex.specs.Inner.Places.{separator_at};

use lent::Short;

#[tactic(auto, using(crate::proofs::Laws::digits))]
fn digit(n: u8) -> u8
    requires { n < 16 }
    ensures { result ≡ digit_of n }
{
    if n < 10 { 0x30 + n } else { 0x37 + n }
}

// What stands after the byte at a place.
#[tactic(auto, using(crate::proofs::Laws::marks))]
fn after(i: usize, len: usize) -> u8
    requires { i < len }
    ensures { result ≡ separator_at i len }
{
    if i + 1 < len { 0x20 } else { 0x0A }
}

// The line stands at the start of the lent text. Where that is too short for it, nothing is written.
#[tactic(auto, using(crate::proofs::Laws::lines))]
pub fn line(bytes: &[u8], text: &mut [u8]) -> Result<(), Short>
    ensures { left result text.new ≡ put_of text.old 0 (line_of bytes.now) }
{
    if text.len() / 3 < bytes.len() {
        return Err(Short);
    }
    for (i, &b) in bytes.iter().enumerate() {
        let at = 3 * i;
        text[at] = digit(b / 16);
        text[at + 1] = digit(b % 16);
        text[at + 2] = after(i, bytes.len());
    }
    Ok(())
}
