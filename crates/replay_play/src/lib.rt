// The play of one capture record, of either form: judged whole, its events go to the chip, its reply frames into the lent output. Document 01, "Replay", and 02,
// section 5.
#![tactic(auto)]

ghost use Rattle.std.specs.Prelude.{◌≡◌, ◌∷◌, [], map, ◌*◌, ◌≤◌, length};
ghost use Rattle.chip.specs.declared.Event.TheVariants.{Byte, Gap};
ghost use Rattle.chip_core.specs.Effect.{memory};
ghost use Rattle.replay_play.specs.Play.{before_playing, output_least, play_of, played, played_into, record_playing};

use chip::{Event, events};
use chip_reply::Sent;
use chip_state::Chip;
use part::Part;
use part::refusal::Refusal;
use replay_capture::{Form, Record};

// Why a record was not played to its end: it is not good; there was less output than it asks for; or the chip refused a call.
#[derive(Clone, Copy, Debug, PartialEq, Eq)]
pub enum Unplayed {
    NotGood,
    OutputShort,
    Refused(Refusal),
}

// How playing ended, with the bytes and frames of its replies, and the chip after it.
#[derive(Clone, Copy)]
pub struct PlayedRecord {
    pub ended: Result<Sent, Unplayed>,
    pub chip: Chip,
}

fn play_gap(
    part: Part,
    chip: Chip,
    code: &mut [u8],
    data: &mut [u8],
    sums: &mut [u16; 72],
    room: &mut [u8],
    output: &mut [u8],
) -> PlayedRecord
    requires { 32 ≤ length output.old }
    ensures { record_playing result (memory code.new «data».new sums.new) room.new output.new
        ≡ played_into (played part (Gap ∷ []) (before_playing chip (memory code.old «data».old sums.old) room.old))
        output.old }
{
    let step = events::step(part, chip, Event::Gap, code, data, sums, room);
    let answer = step.answer;
    let chip = step.chip;
    match answer {
        Err(refusal) => PlayedRecord {
            ended: Err(Unplayed::Refused(refusal)),
            chip,
        },
        Ok(sent) => {
            let _ = lent::put(output, 0, &room[0..sent.bytes]);
            PlayedRecord {
                ended: Ok(sent),
                chip,
            }
        }
    }
}

fn play_bytes(
    part: Part,
    chip: Chip,
    bytes: &[u8],
    code: &mut [u8],
    data: &mut [u8],
    sums: &mut [u16; 72],
    room: &mut [u8],
    output: &mut [u8],
) -> PlayedRecord
    requires { (length bytes.now ≤ 8) × (32 * length bytes.now ≤ length output.old) }
    ensures { record_playing result (memory code.new «data».new sums.new) room.new output.new
        ≡ played_into (played part (map Byte bytes.now)
        (before_playing chip (memory code.old «data».old sums.old) room.old)) output.old }
{
    let mut last = chip;
    let mut i = 0;
    let mut said = 0;
    let mut frames = 0;
    while i < bytes.len() {
        let fed = chip_feed::feed(part, last, &bytes[i..], code, data, sums, room);
        last = fed.chip;
        i = i + fed.taken;
        let answer = fed.answer;
        match answer {
            Err(refusal) => {
                return PlayedRecord {
                    ended: Err(Unplayed::Refused(refusal)),
                    chip: last,
                };
            }
            Ok(sent) => {
                let _ = lent::put(output, said, &room[0..sent.bytes]);
                said = said + sent.bytes;
                frames = frames + sent.frames;
            }
        }
    }
    PlayedRecord {
        ended: Ok(Sent {
            bytes: said,
            frames,
        }),
        chip: last,
    }
}

// How much output a record asks for, whatever it carries.
pub fn output_least(form: Form) -> usize
    ensures { result ≡ output_least form }
{
    32 * replay_capture::data_size(form)
}

// One record: judged whole, then its events one after the other; the other seat's has none. With less output than it asks for it is not played.
pub fn play(
    form: Form,
    part: Part,
    chip: Chip,
    bytes: &[u8],
    code: &mut [u8],
    data: &mut [u8],
    sums: &mut [u16; 72],
    room: &mut [u8],
    output: &mut [u8],
) -> PlayedRecord
    ensures { record_playing result (memory code.new «data».new sums.new) room.new output.new
        ≡ play_of form part bytes.now chip (memory code.old «data».old sums.old) room.old output.old }
{
    let Ok(record) = replay_capture::read(form, bytes) else {
        return PlayedRecord {
            ended: Err(Unplayed::NotGood),
            chip,
        };
    };
    if output.len() < output_least(form) {
        return PlayedRecord {
            ended: Err(Unplayed::OutputShort),
            chip,
        };
    }
    match record {
        Record::OtherSeat => PlayedRecord {
            ended: Ok(Sent {
                bytes: 0,
                frames: 0,
            }),
            chip,
        },
        Record::GapRecord => play_gap(part, chip, code, data, sums, room, output),
        Record::BytesRecord(n) => {
            let carried = replay_capture::carried(form, n, bytes);
            play_bytes(part, chip, carried, code, data, sums, room, output)
        }
    }
}
