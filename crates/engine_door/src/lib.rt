// The plain engine for programs in C and Rust: one call that plays a whole stretch of bytes into a chip whose state is lent as bytes. Document 02, section 7.
#![tactic(auto)]

ghost use Rattle.std.specs.Prelude.{◌≡◌};
ghost use Rattle.chip_core.specs.Effect.{memory};
ghost use Rattle.engine_door.specs.Calls.{engine_through, engine_told};
ghost use Rattle.part_layout.specs.Layout.{part_in};

use chip_layout::admission;
use engine::EngineRefusal;

// All bytes of the stretch are taken. The replies lie end to end at the start of the room: told are their bytes and frames, how many frames were judged bad, and the
// fault of the first of them with its place.
pub fn zc_engine(
    part: &[u8; 19],
    state: &mut [u8; chip_layout::STATE_SIZE],
    fed: &[u8],
    code: &mut [u8],
    data: &mut [u8],
    sums: &mut [u16; 72],
    room: &mut [u8],
    told: &mut [u64; 5],
) -> u32
    ensures { engine_told result told.new state.new (memory code.new «data».new sums.new) room.new
        ≡ engine_through (part_in part.now) fed.now told.old state.old
        (memory code.old «data».old sums.old) room.old }
{
    let p = part_layout::part_in(part);
    let v = admission::chip_admission(p, state, code.len(), data.len());
    match v {
        Err(refusal) => refusal.number() as u32,
        Ok(()) => {
            let chip = chip_layout::chip_in(state);
            let played = engine::play(p, chip, fed, code, data, sums, room);
            let answer = played.answer;
            match answer {
                Err(EngineRefusal::Refused(refusal)) => refusal.number() as u32,
                Err(EngineRefusal::NoRoom) => 12,
                Ok(sent) => {
                    chip_layout::lay_chip(played.chip, state);
                    let first = played.first;
                    let fault = first.fault();
                    *told = [
                        sent.bytes as u64,
                        sent.frames as u64,
                        played.faults as u64,
                        fault.number as u64,
                        fault.place as u64,
                    ];
                    0
                }
            }
        }
    }
}
