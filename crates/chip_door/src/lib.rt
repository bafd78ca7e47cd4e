// The calls for C and Rust. Each takes a part as 19 bytes and a chip's state as lent bytes in one layout, and answers a refusal number, 0 where it was not refused; what
// else it tells goes into lent numbers. Document 01, "Refusal numbers".
#![tactic(auto)]

ghost use Rattle.std.specs.Prelude.{◌≡◌};
ghost use Rattle.chip.specs.declared.Event.TheVariants.{Byte, Gap, PowerOn};
ghost use Rattle.chip_core.specs.Effect.{flash, memory};
ghost use Rattle.chip_layout.specs.Admission.{acceptance_number};
ghost use Rattle.part_layout.specs.Layout.{part_in};
ghost use Rattle.chip_door.specs.Calls.{bytes_told, fed_through, frames_told, fresh_through, made, stepped_through, step_told, sums_told, summed_through};

use chip::{Event, events};
use chip_layout::{admission, in_place};
use chip_reply::Sent;
use part::refusal::Refusal;

// What a call answers: a refusal's number, 0 where there is none.
fn number_of(call: Result<(), Refusal>) -> u32
    ensures { result ≡ acceptance_number call }
{
    match call {
        Err(refusal) => u32::from(refusal.number()),
        Ok(()) => 0,
    }
}

#[tactic(auto, unfolding(crate::specs::Calls::bytes_told))]
fn bytes_told(answer: Result<Sent, Refusal>) -> usize
    ensures { result ≡ bytes_told answer }
{
    answer.map_or(0, |sent| sent.bytes)
}

#[tactic(auto, unfolding(crate::specs::Calls::frames_told))]
fn frames_told(answer: Result<Sent, Refusal>) -> usize
    ensures { result ≡ frames_told answer }
{
    answer.map_or(0, |sent| sent.frames)
}

// A fresh chip of the part into the lent state.
pub fn zc_fresh(part: &[u8; 19], state: &mut [u8; chip_layout::STATE_SIZE]) -> u32
    ensures { made result state.new ≡ fresh_through (part_in part.now) state.old }
{
    let step = events::fresh(part_layout::part_in(part));
    if let Err(refusal) = step.answer {
        return number_of(Err(refusal));
    }
    chip_layout::lay_chip(step.chip, state);
    0
}

// All sums of a chip's blocks worked out from its flash into the lent numbers: when a chip is taken up.
pub fn zc_sums(part: &[u8; 19], code: &[u8], data: &[u8], sums: &mut [u16; 72]) -> u32
    ensures { sums_told result sums.new
        ≡ summed_through (part_in part.now) (flash code.now «data».now) sums.old }
{
    number_of(chip_sums::work_out(part_layout::part_in(part), code, data, sums))
}

fn step(
    part: &[u8; 19],
    state: &mut [u8; chip_layout::STATE_SIZE],
    event: Event,
    code: &mut [u8],
    data: &mut [u8],
    sums: &mut [u16; 72],
    room: &mut [u8],
    told: &mut [u64; 4],
) -> Result<(), Refusal>
    ensures { step_told (acceptance_number result) told.new state.new (memory code.new «data».new sums.new) room.new
        ≡ stepped_through (part_in part.now) event told.old state.old
        (memory code.old «data».old sums.old) room.old }
{
    let p = part_layout::part_in(part);
    admission::chip_admission(p, state, code.len(), data.len())?;
    let chip = chip_layout::chip_in(state);
    let s = events::step(p, chip, event, code, data, sums, room);
    let sent = s.answer?;
    chip_layout::lay_chip(s.chip, state);
    let fault = s.fault.fault();
    *told = [
        sent.bytes as u64,
        sent.frames as u64,
        fault.number as u64,
        fault.place as u64,
    ];
    Ok(())
}

// A byte comes. The reply, if one is made, lies at the start of the room: told are its bytes and its frames, and the fault of the frame that it answers, with its
// place, where that was judged bad. One that is only added to what is collected is written where the state lies.
pub fn zc_byte(
    part: &[u8; 19],
    state: &mut [u8; chip_layout::STATE_SIZE],
    b: u8,
    code: &mut [u8],
    data: &mut [u8],
    sums: &mut [u16; 72],
    room: &mut [u8],
    told: &mut [u64; 4],
) -> u32
    ensures { step_told result told.new state.new (memory code.new «data».new sums.new) room.new
        ≡ stepped_through (part_in part.now) (Byte b) told.old state.old
        (memory code.old «data».old sums.old) room.old }
{
    if in_place::is_added(state) {
        let p = part_layout::bare_in(part);
        let refused = admission::judge(p, state, code.len(), data.len(), room.len());
        if refused != 0 {
            return refused;
        }
        in_place::add_byte(state, b);
        *told = [0, 0, 0, 0];
        return 0;
    }
    number_of(step(part, state, Event::Byte(b), code, data, sums, room, told))
}

// A gap comes: only the count of what is collected is new, and it is written where the state lies.
pub fn zc_gap(
    part: &[u8; 19],
    state: &mut [u8; chip_layout::STATE_SIZE],
    code: &mut [u8],
    data: &mut [u8],
    sums: &mut [u16; 72],
    room: &mut [u8],
    told: &mut [u64; 4],
) -> u32
    ensures { step_told result told.new state.new (memory code.new «data».new sums.new) room.new
        ≡ stepped_through (part_in part.now) Gap told.old state.old
        (memory code.old «data».old sums.old) room.old }
{
    let p = part_layout::bare_in(part);
    let refused = admission::judge(p, state, code.len(), data.len(), room.len());
    if refused != 0 {
        return refused;
    }
    in_place::lay_count(state, 0);
    *told = [0, 0, 0, 0];
    0
}

// Power-on.
pub fn zc_power_on(
    part: &[u8; 19],
    state: &mut [u8; chip_layout::STATE_SIZE],
    code: &mut [u8],
    data: &mut [u8],
    sums: &mut [u16; 72],
    room: &mut [u8],
    told: &mut [u64; 4],
) -> u32
    ensures { step_told result told.new state.new (memory code.new «data».new sums.new) room.new
        ≡ stepped_through (part_in part.now) PowerOn told.old state.old
        (memory code.old «data».old sums.old) room.old }
{
    number_of(step(part, state, Event::PowerOn, code, data, sums, room, told))
}

// Bytes one after the other, up to the first that is answered: told are how many were taken, and the same of the last as of a byte. The caller hands the rest in
// again.
pub fn zc_feed(
    part: &[u8; 19],
    state: &mut [u8; chip_layout::STATE_SIZE],
    fed: &[u8],
    code: &mut [u8],
    data: &mut [u8],
    sums: &mut [u16; 72],
    room: &mut [u8],
    told: &mut [u64; 5],
) -> u32
    ensures { step_told result told.new state.new (memory code.new «data».new sums.new) room.new
        ≡ fed_through (part_in part.now) fed.now told.old state.old
        (memory code.old «data».old sums.old) room.old }
{
    let p = part_layout::part_in(part);
    if let Err(refusal) = admission::chip_acceptance(p, state, code.len(), data.len(), room.len()) {
        return number_of(Err(refusal));
    }
    let chip = chip_layout::chip_in(state);
    let f = chip_feed::feed(p, chip, fed, code, data, sums, room);
    let fault = f.fault.fault();
    chip_layout::lay_chip(f.chip, state);
    *told = [
        f.taken as u64,
        bytes_told(f.answer) as u64,
        frames_told(f.answer) as u64,
        fault.number as u64,
        fault.place as u64,
    ];
    0
}
