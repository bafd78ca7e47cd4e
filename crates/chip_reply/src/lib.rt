// The replies of the chip: a value, its payloads, and the one place where they become bytes in the reply room.
#![tactic(auto)]

ghost use Rattle.std.specs.Prelude.{◌≡◌, [], ◌∷◌, ◌+◌, ◌≤◌, length};
ghost use Rattle.chip_reply.specs.Reply.{fault_in, said, said_of, send_of};

use chip_options::Options;
use frame::judgement::Judgement;
use frame::{Footer, wire};
use part::Part;

// The reply to a bad frame has its judgement: one status, or that status twice where the frame was a page.
#[derive(Clone, Copy)]
pub enum Reply {
    Silence,
    Status(u8),
    BadFrame(Judgement),
    Rate(u8),
    Pair(u8, u8),
    BadPage(Judgement),
    LastStored,
    Sum(u16),
    Signature,
    Security,
}

// The bytes and the frames of what was written.
#[derive(Clone, Copy)]
pub struct Sent {
    pub bytes: usize,
    pub frames: usize,
}

impl Sent {
    // No frame, and so no byte.
    pub const NOTHING: Sent = Sent {
        bytes: 0,
        frames: 0,
    };
}

impl Reply {
    // The judgement of the frame that it answers, where that was judged bad.
    #[tactic(auto, unfolding(crate::specs::Reply::fault_in))]
    pub fn fault(self) -> Judgement
        ensures { result ≡ fault_in self }
    {
        match self {
            Reply::BadFrame(j) | Reply::BadPage(j) => j,
            _ => Judgement::Good,
        }
    }
}

fn send_one(room: &mut [u8], payload: &[u8]) -> Sent
    requires { (32 ≤ length room.old) × (1 ≤ length payload.now) × (length payload.now ≤ 28) }
    ensures { said result room.new ≡ said_of (payload.now ∷ []) room.old }
{
    let _ = wire::write_data(room, payload, Footer::Last);
    Sent {
        bytes: payload.len() + frame::OVERHEAD,
        frames: 1,
    }
}

// The second frame goes into the room past the first.
fn send_two(room: &mut [u8], first: &[u8], second: &[u8]) -> Sent
    requires { (32 ≤ length room.old) × (1 ≤ length first.now) × (1 ≤ length second.now) × (length first.now + length second.now ≤ 24) }
    ensures { said result room.new ≡ said_of (first.now ∷ second.now ∷ []) room.old }
{
    let n = first.len() + frame::OVERHEAD;
    let _ = wire::write_data(room, first, Footer::Last);
    let _ = wire::write_data(&mut room[n..], second, Footer::Last);
    Sent {
        bytes: n + second.len() + frame::OVERHEAD,
        frames: 2,
    }
}

pub fn send(part: Part, options: Options, reply: Reply, room: &mut [u8]) -> Sent
    ensures { said result room.new ≡ send_of part options reply room.old }
{
    if room.len() < 32 {
        return Sent::NOTHING;
    }
    if !part.is_described() {
        return Sent::NOTHING;
    }
    let status = [0x06];
    match reply {
        Reply::Silence => Sent::NOTHING,
        Reply::Status(s) => {
            let d = [s];
            send_one(room, &d)
        }
        Reply::BadFrame(j) => {
            let d = [j.status()];
            send_one(room, &d)
        }
        Reply::Rate(mode) => {
            let d = [0x06, part.clock as u8, mode];
            send_one(room, &d)
        }
        Reply::Pair(s, t) => {
            let d = [s, t];
            send_one(room, &d)
        }
        Reply::BadPage(j) => {
            let s = j.status();
            let d = [s, s];
            send_one(room, &d)
        }
        Reply::LastStored => {
            let d = [0x06, 0x06];
            let further = [0x06];
            send_two(room, &d, &further)
        }
        Reply::Sum(n) => {
            let d = n.to_le_bytes();
            send_two(room, &status, &d)
        }
        Reply::Signature => {
            let d = part::signature::bytes(part);
            send_two(room, &status, &d)
        }
        Reply::Security => {
            let d = options.security();
            send_two(room, &status, &d)
        }
    }
}
