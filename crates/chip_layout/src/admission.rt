// What bars a call on a state that crossed as bytes. Document 01, "Refusal numbers".
ghost use Rattle.std.specs.Prelude.{◌≡◌, get_or};
ghost use Rattle.chip_state.specs.Refusals.{good_state, verdict_on};
ghost use Rattle.numbers.specs.Numbers.{number_at};
ghost use Rattle.chip_layout.specs.Layout.{chip_in, core_in};
ghost use Rattle.chip_layout.specs.Admission.{acceptance_number, chip_acceptance, chip_admission};

use chip_state::Handed;
use part::refusal::Refusal;
use part::{Area, Part};

// What bars a call before the chip is asked: the description, the lengths of flash, and bytes that are no state, in the paper's order.
pub fn chip_admission(
    part: Part,
    state: &[u8; super::STATE_SIZE],
    code: usize,
    data: usize,
) -> Result<(), Refusal>
    ensures { result ≡ chip_admission part state.now code «data» }
{
    chip_sums::flash_verdict(part, code, data)?;
    if !super::is_state(state) {
        return Err(Refusal::BadState);
    }
    Ok(())
}

// The chip's verdict on the state read, without its collected bytes.
fn verdict_in(
    part: Part,
    state: &[u8; super::STATE_SIZE],
    code: usize,
    data: usize,
    room: usize,
) -> Result<(), Refusal>
    ensures { result ≡ verdict_on part (chip_in state.now) code «data» room }
{
    let core = super::core_in(state);
    let handed = Handed {
        count: super::number8(state, 25),
        head: state[33],
        len: state[34],
        code,
        data,
        room,
    };
    chip_state::verdict(part, core, handed)
}

// The same, and then the chip's own verdict: before the first event of a call.
#[tactic(auto, unfolding(crate::specs::Admission::chip_acceptance, crate::specs::Admission::chip_acceptance_by))]
pub fn chip_acceptance(
    part: Part,
    state: &[u8; super::STATE_SIZE],
    code: usize,
    data: usize,
    room: usize,
) -> Result<(), Refusal>
    ensures { result ≡ chip_acceptance part state.now code «data» room }
{
    chip_admission(part, state, code, data)?;
    verdict_in(part, state, code, data, room)
}

// Whether the chip accepts the state read, without its collected bytes.
fn is_good_in(part: Part, state: &[u8; super::STATE_SIZE]) -> bool
    ensures { result ≡ good_state part (core_in state.now) (number_at 8 25 state.now)
        (get_or state.now 33 0) (get_or state.now 34 0) }
{
    let core = super::core_in(state);
    let count = super::number8(state, 25);
    chip_state::is_good_state(part, core, count, state[33], state[34])
}

// That verdict as its number, found on numbers alone: no verdict goes through memory.
pub fn judge(
    part: Part,
    state: &[u8; super::STATE_SIZE],
    code: usize,
    data: usize,
    room: usize,
) -> u32
    ensures { result ≡ acceptance_number (chip_acceptance part state.now code «data» room) }
{
    if !part.is_described() {
        return 1;
    }
    if code != part.size(Area::CodeFlash) {
        return 2;
    }
    if data != part.size(Area::DataFlash) {
        return 3;
    }
    if !super::is_state(state) {
        return 9;
    }
    if !is_good_in(part, state) {
        return 9;
    }
    if room < 32 {
        return 4;
    }
    0
}
