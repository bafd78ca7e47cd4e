// The chip's step alone, a byte at a time and by value, for `trials/run speed` to measure without the door. No program needs it for anything else.
#![tactic(auto)]

ghost use Rattle.std.specs.Prelude.{map, ◌≡◌};
ghost use Rattle.chip.specs.Run.{before, run};
ghost use Rattle.chip.specs.Step.{outcome};
ghost use Rattle.chip.specs.declared.Event.TheVariants.{Byte};
ghost use Rattle.chip_core.specs.Effect.{memory};
ghost use Rattle.part_layout.specs.Layout.{part_in};
ghost use Rattle.chip_pace.specs.Pace.{paced, paced_of};

use chip::{Event, Step, events};
use chip_reply::Sent;
use chip_state::Chip;
use frame::judgement::Judgement;
use part::Part;

fn steps(
    part: Part,
    chip: Chip,
    bytes: &[u8],
    code: &mut [u8],
    data: &mut [u8],
    sums: &mut [u16; 72],
    room: &mut [u8],
) -> Step
    ensures { outcome result (memory code.new «data».new sums.new) room.new
        ≡ run part (map Byte bytes.now) (before chip (memory code.old «data».old sums.old) room.old) }
{
    let mut last = Step {
        answer: Ok(Sent::NOTHING),
        fault: Judgement::Good,
        chip,
    };
    for &b in bytes {
        last = events::step(part, last.chip, Event::Byte(b), code, data, sums, room);
    }
    last
}

// A fresh chip through all the bytes; the count of those that it has collected at the end.
pub fn zp_steps(
    part: &[u8; 19],
    bytes: &[u8],
    code: &mut [u8],
    data: &mut [u8],
    sums: &mut [u16; 72],
    room: &mut [u8],
) -> usize
    ensures { paced result (memory code.new «data».new sums.new) room.new
        ≡ paced_of (part_in part.now) bytes.now (memory code.old «data».old sums.old)
        room.old }
{
    let p = part_layout::part_in(part);
    let first = events::fresh(p);
    let last = steps(p, first.chip, bytes, code, data, sums, room);
    last.chip.collector.len
}
