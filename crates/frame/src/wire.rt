// Frames written into lent room, and a reply frame judged at the front of lent bytes.
ghost use Rattle.std.specs.Prelude.{◌≡◌, ◌+◌, ◌≤◌, ◌∷◌, ◌++◌, length};
ghost use Rattle.frame.specs.declared.Header.TheVariants.{Command, Data};
ghost use Rattle.frame.specs.declared.Footer.TheVariants.{Last};
ghost use Rattle.frame.specs.Wire.{wrote, write_of, laid, unfit_reply, judge_reply};

use super::judgement::Judgement;
use super::{Footer, Header, judgement, sum};

// Why no frame was written: its payload is none that a frame carries, or the room was short.
#[derive(Clone, Copy, Debug, PartialEq, Eq)]
pub enum WriteError {
    UnfitPayload,
    NoRoom,
}

// A frame laid at the start of room that holds it; its payload is `lead` and then `rest`.
fn lay(room: &mut [u8], header: Header, lead: &[u8], rest: &[u8], footer: Footer)
    requires { length lead.now + length rest.now + 4 ≤ length room.old }
    ensures { room.new ≡ laid room.old header (lead.now ++ rest.now) footer }
{
    let m = lead.len();
    let n = m + rest.len();
    let len = super::len_byte(n);
    let sum = sum::sum8(sum::sum8(sum::less8(0x00, len), lead), rest);
    room[0] = header.byte();
    room[1] = len;
    let _ = lent::put(room, 2, lead);
    let _ = lent::put(room, 2 + m, rest);
    room[2 + n] = sum;
    room[3 + n] = footer.byte();
}

#[tactic(auto, using(crate::proofs::Laws::Wire::written))]
fn write(
    room: &mut [u8],
    header: Header,
    lead: &[u8],
    rest: &[u8],
    footer: Footer,
) -> Result<usize, WriteError>
    ensures { wrote result room.new ≡ write_of room.old header (lead.now ++ rest.now) footer }
{
    let n = lead.len() + rest.len();
    if n < 1 || 256 < n {
        return Err(WriteError::UnfitPayload);
    }
    if room.len() < n + 4 {
        return Err(WriteError::NoRoom);
    }
    lay(room, header, lead, rest, footer);
    Ok(n + 4)
}

// Command frames end with 03h; their payload is COM and then the information.
pub fn write_command(room: &mut [u8], command: u8, information: &[u8]) -> Result<usize, WriteError>
    ensures { wrote result room.new ≡ write_of room.old Command (command ∷ information.now) Last }
{
    let lead = [command];
    write(room, Header::Command, &lead, information, Footer::Last)
}

pub fn write_data(room: &mut [u8], payload: &[u8], footer: Footer) -> Result<usize, WriteError>
    ensures { wrote result room.new ≡ write_of room.old Data payload.now footer }
{
    write(room, Header::Data, &payload[0..0], payload, footer)
}

#[tactic(auto, using(crate::proofs::Laws::Wire::unfit))]
fn is_unfit(bytes: &[u8], n: usize, last: bool) -> bool
    ensures { result ≡ unfit_reply n last bytes.now }
{
    let len = lent::byte_at(bytes, 1);
    let end = super::needed(len);
    super::counted(len) != n || bytes.len() < end || last && end < bytes.len()
}

// The reply frame at the front, given how many bytes it is expected to carry, and whether it is the last of its answer.
#[tactic(auto, using(crate::proofs::Laws::Wire::replied))]
pub fn judge_reply(bytes: &[u8], n: usize, last: bool) -> Judgement
    ensures { result ≡ judge_reply n last bytes.now }
{
    if lent::byte_at(bytes, 0) != Header::Data.byte() {
        return Judgement::WrongFirst;
    }
    if is_unfit(bytes, n, last) {
        return Judgement::UnfitLength;
    }
    let end = super::needed(lent::byte_at(bytes, 1));
    judgement::judge(Footer::Last, &bytes[0..end])
}
