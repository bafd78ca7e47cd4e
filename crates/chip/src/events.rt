// One step of the chip: refusals first, then what is heard, then the work of a complete frame, then the reply in the room.
// Document 01, "Frames" ("Collecting"), "Phases" and "Refusal numbers".
ghost use Rattle.std.specs.Prelude.{◌≡◌, ◌<◌, ◌+◌, length, Ok};
ghost use Rattle.chip_core.specs.Effect.{memory};
ghost use Rattle.chip_core.specs.Hearing.{hearing};
ghost use Rattle.chip_state.specs.Refusals.{verdict_on};
ghost use Rattle.chip.specs.declared.Event.TheVariants.{Byte};
ghost use Rattle.chip.specs.Inner.Ways.{answered, completes_at, way_on, way_of};
ghost use Rattle.chip.specs.Step.{powered_on, outcome, step_of, fresh_of};

use super::{Event, Step};
use chip_core::{Core, Hearing, Phase};
use chip_options::Options;
use chip_reply::Sent;
use chip_state::{Chip, Handed};
use frame::Header;
use frame::collector::Collector;
use frame::judgement::Judgement;
use part::Part;
use part::refusal::Refusal;

// Whether the byte after so many completes the frame.
fn completes(count: usize, len: u8) -> bool
    ensures { result ≡ completes_at count len }
{
    2 <= count && frame::counted(len) + frame::BEFORE_LAST <= count
}

// What a byte means in a state that is accepted: a mode byte, a byte that is heard, or one that completes a frame.
#[derive(Clone, Copy)]
enum Way {
    Mode,
    Hears(Header),
    Completes(Header),
}

fn way_on(header: Header, count: usize, len: u8) -> Way
    ensures { result ≡ way_on header count len }
{
    if completes(count, len) {
        return Way::Completes(header);
    }
    Way::Hears(header)
}

fn way_in(phase: Phase, count: usize, len: u8) -> Way
    ensures { result ≡ way_of (hearing phase) count len }
{
    match phase.hearing() {
        Hearing::HearsNothing => Way::Mode,
        Hearing::HearsCommands => way_on(Header::Command, count, len),
        Hearing::HearsData(_) => way_on(Header::Data, count, len),
    }
}

fn powered_on(core: Core) -> Core
    ensures { result ≡ powered_on core }
{
    Core {
        rate: 0x00,
        phase: Phase::ModeByte,
        ..core
    }
}

// What a byte came to that is not refused: what was sent, the fault of the frame that it completed, and the chip after it.
#[derive(Clone, Copy)]
struct ByteDone {
    sent: Sent,
    fault: Judgement,
    chip: Chip,
}

// A byte in a state that is accepted, by its way.
fn byte_step(
    part: Part,
    chip: Chip,
    b: u8,
    code: &mut [u8],
    data: &mut [u8],
    sums: &mut [u16; 72],
    room: &mut [u8],
) -> ByteDone
    requires { verdict_on part chip (length code.old) (length «data».old) (length room.old) ≡ Ok tt }
    ensures { outcome (answered result) (memory code.new «data».new sums.new) room.new
        ≡ step_of part chip (Byte b) (memory code.old «data».old sums.old) room.old }
{
    let core = chip.core;
    let collector = chip.collector;
    match way_in(core.phase, collector.len, collector.bytes[1]) {
        Way::Mode => ByteDone {
            sent: Sent::NOTHING,
            fault: Judgement::Good,
            chip: Chip {
                core: chip_frame::mode_byte(core, b),
                collector,
            },
        },
        Way::Hears(header) => ByteDone {
            sent: Sent::NOTHING,
            fault: Judgement::Good,
            chip: Chip {
                core,
                collector: collector.byte(header, b),
            },
        },
        Way::Completes(header) => {
            let next = collector.byte(header, b);
            let bytes = &next.bytes[0..next.len];
            let done = chip_frame::frame_does(part, core, bytes, code, data, sums);
            ByteDone {
                sent: chip_reply::send(part, done.core.options, done.reply, room),
                fault: done.reply.fault(),
                chip: Chip {
                    core: done.core,
                    collector: collector.gap(),
                },
            }
        }
    }
}

// A fresh chip of the part: at the mode byte, with fresh options and nothing collected.
pub fn fresh(part: Part) -> Step
    ensures { result ≡ fresh_of part }
{
    let chip = Chip {
        core: Core {
            options: Options::fresh(part),
            rate: 0x00,
            phase: Phase::ModeByte,
        },
        collector: Collector::new(),
    };
    let answer = if part.is_described() {
        Ok(Sent::NOTHING)
    } else {
        Err(Refusal::BadPart)
    };
    Step {
        answer,
        fault: Judgement::Good,
        chip,
    }
}

// One event, with both areas of flash, the kept sums and the reply room lent. Refused, it changes nothing. A gap, power-on, and a byte that is only added to what is
// collected, are settled here: the chip is then copied once in and once out. What any other byte takes is copied for it there, and not before.
pub fn step(
    part: Part,
    chip: Chip,
    event: Event,
    code: &mut [u8],
    data: &mut [u8],
    sums: &mut [u16; 72],
    room: &mut [u8],
) -> Step
    ensures { outcome result (memory code.new «data».new sums.new) room.new
        ≡ step_of part chip event (memory code.old «data».old sums.old) room.old }
{
    let core = chip.core;
    let collector = chip.collector;
    let at = collector.len;
    let len = collector.bytes[1];
    let handed = Handed {
        count: at,
        head: collector.bytes[0],
        len,
        code: code.len(),
        data: data.len(),
        room: room.len(),
    };
    if let Err(refusal) = chip_state::verdict(part, core, handed) {
        return Step {
            answer: Err(refusal),
            fault: Judgement::Good,
            chip,
        };
    }
    match event {
        Event::Gap => {
            return Step {
                answer: Ok(Sent::NOTHING),
                fault: Judgement::Good,
                chip: Chip {
                    core,
                    collector: collector.gap(),
                },
            };
        }
        Event::PowerOn => {
            return Step {
                answer: Ok(Sent::NOTHING),
                fault: Judgement::Good,
                chip: Chip {
                    core: powered_on(core),
                    collector: collector.power_on(),
                },
            };
        }
        Event::Byte(b) => {
            if 0 < frame::lacking(at, len, 1) {
                let mut work = [0u8; frame::LONGEST];
                let next = collector.add(b, &mut work);
                return Step {
                    answer: Ok(Sent::NOTHING),
                    fault: Judgement::Good,
                    chip: Chip {
                        core,
                        collector: next,
                    },
                };
            }
            let whole = chip;
            let stepped = byte_step(part, whole, b, code, data, sums, room);
            return Step {
                answer: Ok(stepped.sent),
                fault: stepped.fault,
                chip: stepped.chip,
            };
        }
    }
}
