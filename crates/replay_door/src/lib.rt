// The calls for C and Rust that play capture records into a chip, of the old form and of the new, with a part and a state as in `chip_door`. Document 01, "Replay"
// and "Refusal numbers", and 02, section 5.
#![tactic(auto)]

ghost use Rattle.std.specs.Prelude.{◌≡◌};
ghost use Rattle.chip_core.specs.Effect.{memory};
ghost use Rattle.part_layout.specs.Layout.{part_in};
ghost use Rattle.replay_capture.specs.declared.Form.TheVariants.{New, Old};
ghost use Rattle.replay_door.specs.Calls.{end_number, replayed_through, replay_told};

use chip_layout::admission;
use replay_capture::Form;
use replay_records::Halt;

#[tactic(auto, unfolding(crate::specs::Calls::end_number))]
fn end_number(ended: Result<(), Halt>) -> u32
    ensures { result ≡ end_number ended }
{
    match ended {
        Ok(()) => 0,
        Err(Halt::AtBadRecord) => replay_capture::BAD_RECORD,
        Err(Halt::OutputFull) => 17,
        Err(Halt::Refused(refusal)) => refusal.number() as u32,
    }
}

// Capture records one after the other: told are how many were played, and how many bytes and frames of replies stand in the output, end to end.
fn replay(
    form: Form,
    part: &[u8; 19],
    state: &mut [u8; chip_layout::STATE_SIZE],
    capture: &[u8],
    code: &mut [u8],
    data: &mut [u8],
    sums: &mut [u16; 72],
    room: &mut [u8],
    output: &mut [u8],
    told: &mut [u64; 3],
) -> Result<(), Halt>
    ensures { replay_told (end_number result) told.new state.new
        (memory code.new «data».new sums.new) room.new output.new
        ≡ replayed_through form (part_in part.now) capture.now told.old state.old
        (memory code.old «data».old sums.old) room.old output.old }
{
    let p = part_layout::part_in(part);
    let v = admission::chip_acceptance(p, state, code.len(), data.len(), room.len());
    v.map_err(Halt::Refused)?;
    let chip = chip_layout::chip_in(state);
    let x = replay_records::replay(form, p, chip, capture, code, data, sums, room, output);
    chip_layout::lay_chip(x.chip, state);
    *told = [x.records as u64, x.bytes as u64, x.frames as u64];
    x.ended
}

pub fn zc_replay(
    part: &[u8; 19],
    state: &mut [u8; chip_layout::STATE_SIZE],
    capture: &[u8],
    code: &mut [u8],
    data: &mut [u8],
    sums: &mut [u16; 72],
    room: &mut [u8],
    output: &mut [u8],
    told: &mut [u64; 3],
) -> u32
    ensures { replay_told result told.new state.new
        (memory code.new «data».new sums.new) room.new output.new
        ≡ replayed_through Old (part_in part.now) capture.now told.old state.old
        (memory code.old «data».old sums.old) room.old output.old }
{
    end_number(replay(
        Form::Old,
        part,
        state,
        capture,
        code,
        data,
        sums,
        room,
        output,
        told,
    ))
}

pub fn zc_replay_new(
    part: &[u8; 19],
    state: &mut [u8; chip_layout::STATE_SIZE],
    capture: &[u8],
    code: &mut [u8],
    data: &mut [u8],
    sums: &mut [u16; 72],
    room: &mut [u8],
    output: &mut [u8],
    told: &mut [u64; 3],
) -> u32
    ensures { replay_told result told.new state.new
        (memory code.new «data».new sums.new) room.new output.new
        ≡ replayed_through New (part_in part.now) capture.now told.old state.old
        (memory code.old «data».old sums.old) room.old output.old }
{
    end_number(replay(
        Form::New,
        part,
        state,
        capture,
        code,
        data,
        sums,
        room,
        output,
        told,
    ))
}
