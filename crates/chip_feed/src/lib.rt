// A stretch of bytes for the chip: the fold of its step up to the first reply. Bytes that are only added to what is collected are taken at once.
#![tactic(auto)]

ghost use Rattle.std.specs.Prelude.{◌≡◌, ◌<◌, ◌≤◌};
ghost use Rattle.chip.specs.Run.{before};
ghost use Rattle.chip_core.specs.Effect.{memory};
ghost use Rattle.chip_feed.specs.Feed.{fed, feed_of};
ghost use Rattle.chip_feed.specs.Inner.Turn.{added_next};
ghost use Rattle.frame.specs.Frame.{counted};

use chip::{Event, events};
use chip_reply::Sent;
use chip_state::{Chip, Handed};
use frame::judgement::Judgement;
use part::Part;
use part::refusal::Refusal;

// What a stretch of bytes came to: how many were taken, and what the step of the last one left.
#[derive(Clone, Copy)]
pub struct Fed {
    pub taken: usize,
    pub answer: Result<Sent, Refusal>,
    pub fault: Judgement,
    pub chip: Chip,
}

// How many bytes are only added: after the header its LEN byte, and then all up to the frame's last. And what any LEN counts at most, which the loop over them
// needs to know.
fn lacking(count: usize, len: u8, rest: usize) -> usize
    requires { 0 < rest }
    ensures { (result ≡ added_next count len rest) × (counted len ≤ 256) }
{
    if count == 1 {
        return 1;
    }
    frame::lacking(count, len, rest)
}

// Bytes one after the other, each a step, up to the first that is answered: its reply is in the room, and the rest of the bytes is the caller's to hand in
// again. A byte that is refused is not taken. The bytes that are only added to what is collected are taken at once, under one verdict.
pub fn feed(
    part: Part,
    chip: Chip,
    bytes: &[u8],
    code: &mut [u8],
    data: &mut [u8],
    sums: &mut [u16; 72],
    room: &mut [u8],
) -> Fed
    ensures { fed result (memory code.new «data».new sums.new) room.new
        ≡ feed_of part bytes.now (before chip (memory code.old «data».old sums.old) room.old) }
{
    let mut core = chip.core;
    let mut collector = chip.collector;
    let mut answer = Ok(Sent::NOTHING);
    let mut fault = Judgement::Good;
    let mut i = 0;
    while i < bytes.len() {
        let old = collector;
        let at = old.len;
        let len = old.bytes[1];
        let k = lacking(at, len, bytes.len() - i);
        if 0 < k {
            let handed = Handed {
                count: at,
                head: old.bytes[0],
                len,
                code: code.len(),
                data: data.len(),
                room: room.len(),
            };
            if let Err(refusal) = chip_state::verdict(part, core, handed) {
                return Fed {
                    taken: i,
                    answer: Err(refusal),
                    fault: Judgement::Good,
                    chip: Chip {
                        core,
                        collector: old,
                    },
                };
            }
            let end = i + k;
            collector = old.add_all(&bytes[i..end]);
            i = end;
            answer = Ok(Sent::NOTHING);
            fault = Judgement::Good;
        } else {
            let whole = Chip {
                core,
                collector: old,
            };
            let event = Event::Byte(bytes[i]);
            let stepped = events::step(part, whole, event, code, data, sums, room);
            let chip = stepped.chip;
            let found = stepped.fault;
            match stepped.answer {
                Err(refusal) => {
                    return Fed {
                        taken: i,
                        answer: Err(refusal),
                        fault: found,
                        chip,
                    };
                }
                Ok(sent) => {
                    i += 1;
                    if 0 < sent.frames {
                        return Fed {
                            taken: i,
                            answer: Ok(sent),
                            fault: found,
                            chip,
                        };
                    }
                    core = chip.core;
                    collector = chip.collector;
                    answer = Ok(sent);
                    fault = found;
                }
            }
        }
    }
    Fed {
        taken: i,
        answer,
        fault,
        chip: Chip { core, collector },
    }
}
