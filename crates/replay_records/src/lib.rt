// Replay of a capture, of either form, into a chip: its records are played one after the other, their reply frames stand in the lent output. Document 01,
// "Replay", and 02, section 5.
// Reading the capture and printing the frames is the program's.
#![tactic(auto)]

ghost use Rattle.std.specs.Prelude.{◌≡◌, false, true, length, Ok};
ghost use Rattle.chip_core.specs.Effect.{memory};
ghost use Rattle.replay_records.specs.Records.{replay_of, replay_part, replaying};
ghost use Rattle.chip_state.specs.Refusals.{verdict_on};
ghost use Rattle.replay_play.specs.Play.{play_of};
ghost use Rattle.replay_quiet.specs.Quiet.{chip_held};
ghost use Rattle.replay_records.specs.Inner.Loop.{halt_of, turn_left};

use chip_core::Core;
use chip_reply::Sent;
use chip_state::Chip;
use frame::collector::Collector;
use part::Part;
use part::refusal::Refusal;
use replay_capture::Form;
use replay_play::Unplayed;
use replay_quiet::Lengths;

// Where a capture did not end with its last record: at a record that is not good; before one, for want of output; or at a call that the chip refused.
#[derive(Clone, Copy, Debug, PartialEq, Eq)]
pub enum Halt {
    AtBadRecord,
    OutputFull,
    Refused(Refusal),
}

impl From<Unplayed> for Halt {
    ghost from_gives = { λ u h. h ≡ halt_of u };

    #[tactic(auto, unfolding(crate::specs::Inner::Loop::halt_of))]
    fn from(unplayed: Unplayed) -> Halt {
        match unplayed {
            Unplayed::NotGood => Halt::AtBadRecord,
            Unplayed::OutputShort => Halt::OutputFull,
            Unplayed::Refused(refusal) => Halt::Refused(refusal),
        }
    }
}

#[derive(Clone, Copy)]
pub struct Replayed {
    pub ended: Result<(), Halt>,
    pub records: usize,
    pub bytes: usize,
    pub frames: usize,
    pub chip: Chip,
}

// What a record's turn came to: how it ended, how many bytes are collected, and whether the next call is known to be accepted.
#[derive(Clone, Copy)]
struct RecordTurn {
    ended: Result<Sent, Unplayed>,
    count: usize,
    known: bool,
}

// One record on the whole chip. It is no part of the loop's own code: the arrays that it copies would be made ready there for every record, a quiet one too.
#[inline(never)]
fn play_held(
    form: Form,
    part: Part,
    core: &mut Core,
    held: &mut [u8; frame::LONGEST],
    count: usize,
    bytes: &[u8],
    code: &mut [u8],
    data: &mut [u8],
    sums: &mut [u16; 72],
    room: &mut [u8],
    output: &mut [u8],
) -> RecordTurn
    ensures { (turn_left result core.new held.new (memory code.new «data».new sums.new) room.new output.new
        ≡ play_of form part bytes.now (chip_held core.old held.old count) (memory code.old «data».old sums.old)
        room.old output.old)
        × (length held.new ≡ 260) × (result.known ≡ false) }
{
    let before = *held;
    let chip = Chip {
        core: *core,
        collector: Collector {
            bytes: before,
            len: count,
        },
    };
    let t = replay_play::play(form, part, chip, bytes, code, data, sums, room, output);
    let ended = t.ended;
    let last = t.chip;
    *core = last.core;
    let collector = last.collector;
    let after = collector.bytes;
    *held = after;
    RecordTurn {
        ended,
        count: collector.len,
        known: false,
    }
}

// One record, with the collected bytes where they lie: a quiet one is settled there, any other is played on the whole chip.
fn turn(
    form: Form,
    known: bool,
    part: Part,
    core: &mut Core,
    held: &mut [u8; frame::LONGEST],
    count: usize,
    bytes: &[u8],
    code: &mut [u8],
    data: &mut [u8],
    sums: &mut [u16; 72],
    room: &mut [u8],
    output: &mut [u8],
) -> RecordTurn
    requires { (length held.old ≡ 260)
        × (known ≡ true → verdict_on part (chip_held core.old held.old count) (length code.old) (length «data».old) (length room.old) ≡ Ok tt) }
    ensures { (turn_left result core.new held.new (memory code.new «data».new sums.new) room.new output.new
        ≡ play_of form part bytes.now (chip_held core.old held.old count) (memory code.old «data».old sums.old)
        room.old output.old)
        × (length held.new ≡ 260)
        × (result.known ≡ true
        → verdict_on part (chip_held core.new held.new result.count) (length code.new) (length «data».new) (length room.new)
        ≡ Ok tt) }
{
    let lengths = Lengths {
        code: code.len(),
        data: data.len(),
        room: room.len(),
        output: output.len(),
    };
    let quiet = replay_quiet::settle(form, known, part, *core, held, count, bytes, lengths);
    match quiet {
        Some(n) => RecordTurn {
            ended: Ok(Sent {
                bytes: 0,
                frames: 0,
            }),
            count: n,
            known: true,
        },
        None => play_held(
            form, part, core, held, count, bytes, code, data, sums, room, output,
        ),
    }
}

// A capture's records one after the other, up to the first that is not good. Where the output has no room for a further record's replies, the caller goes on
// from that record with fresh output: nothing is lost.
pub fn replay(
    form: Form,
    part: Part,
    chip: Chip,
    capture: &[u8],
    code: &mut [u8],
    data: &mut [u8],
    sums: &mut [u16; 72],
    room: &mut [u8],
    output: &mut [u8],
) -> Replayed
    ensures { replaying result (memory code.new «data».new sums.new) room.new output.new
        ≡ replay_of form part capture.now chip (memory code.old «data».old sums.old)
        room.old output.old }
{
    let mut core = chip.core;
    let collector = chip.collector;
    let mut held = collector.bytes;
    let mut count = collector.len;
    let mut known = false;
    let mut ended = Ok(());
    let mut records = 0;
    let mut bytes = 0;
    let mut frames = 0;
    for record in capture.chunks(replay_capture::record_size(form)) {
        let t = turn(
            form,
            known,
            part,
            &mut core,
            &mut held,
            count,
            record,
            code,
            data,
            sums,
            room,
            &mut output[bytes..],
        );
        count = t.count;
        known = t.known;
        match t.ended {
            Ok(sent) => {
                records = records + 1;
                bytes = bytes + sent.bytes;
                frames = frames + sent.frames;
            }
            Err(unplayed) => {
                ended = Err(Halt::from(unplayed));
                break;
            }
        }
    }
    Replayed {
        ended,
        records,
        bytes,
        frames,
        chip: Chip {
            core,
            collector: Collector {
                bytes: held,
                len: count,
            },
        },
    }
}

// The part of document 01's replay and examples.
pub fn replay_part() -> Part
    ensures { result ≡ replay_part }
{
    Part {
        code_blocks: 16,
        data_blocks: 4,
        clock: 32,
        device: [0x10, 0x00, 0x06],
        name: [0x52, 0x35, 0x46, 0x31, 0x30, 0x30, 0x4C, 0x45, 0x20, 0x20],
        version: [0x01, 0x02, 0x03],
    }
}
