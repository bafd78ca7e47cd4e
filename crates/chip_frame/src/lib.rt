// What the chip does with a mode byte and with a complete frame, by its phase: document 01, "Phases".
#![tactic(auto)]

ghost use Rattle.std.specs.Prelude.{◌≡◌};
ghost use Rattle.chip_core.specs.Effect.{effect, memory};
ghost use Rattle.chip_core.specs.Hearing.{hearing};
ghost use Rattle.chip_frame.specs.Does.{frame_does, mode_byte};

use chip_core::{Core, Done, Hearing, Phase};
use chip_reply::Reply;
use part::Part;

pub fn mode_byte(core: Core, b: u8) -> Core
    ensures { result ≡ mode_byte core b }
{
    if b == 0x3A || b == 0x00 {
        return core.entered(Phase::Setup);
    }
    core
}

// A complete frame, by what the phase hears.
#[tactic(auto, unfolding(crate::specs::Does::frame_does))]
pub fn frame_does(
    part: Part,
    core: Core,
    bytes: &[u8],
    code: &mut [u8],
    data: &mut [u8],
    sums: &mut [u16; 72],
) -> Done
    ensures { effect result (memory code.new «data».new sums.new)
        ≡ frame_does (hearing core.phase) part core bytes.now (memory code.old «data».old sums.old) }
{
    match core.phase.hearing() {
        Hearing::HearsNothing => Done {
            reply: Reply::Silence,
            core,
        },
        Hearing::HearsCommands => chip_commands::command(part, core, bytes, code, data, sums),
        Hearing::HearsData(w) => chip_pages::page(part, core, w, bytes, code, data, sums),
    }
}
