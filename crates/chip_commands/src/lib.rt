// The command frames of document 01, in the judging order of "Frames": footer and SUM, the command allowed in the phase, LEN, then the work of the command.
#![tactic(auto)]

ghost use Rattle.std.specs.Prelude.{◌≡◌};
ghost use Rattle.chip_core.specs.Effect.{effect, memory};
ghost use Rattle.chip_commands.specs.Commands.{allowed_in, work, reading_does, command_does};

use chip_core::{Core, Done, Phase};
use chip_reply::Reply;
use commands::{Command, Misread};
use frame::judgement::Judgement;
use part::Part;

#[tactic(auto, unfolding(crate::specs::Commands::allowed_in))]
fn allowed_in(phase: Phase, cmd: u8) -> bool
    ensures { result ≡ allowed_in phase cmd }
{
    match phase {
        Phase::Setup => cmd == 0x9A,
        Phase::Ready => cmd != 0x9A,
        Phase::ModeByte | Phase::Awaiting(_) => false,
    }
}

fn work(
    part: Part,
    core: Core,
    command: Command,
    code: &mut [u8],
    data: &mut [u8],
    sums: &mut [u16; 72],
) -> Done
    ensures { effect result (memory code.new «data».new sums.new)
        ≡ work command part core (memory code.old «data».old sums.old) }
{
    match command {
        Command::RateSet { rate, supply } => chip_work::rate_set(part, core, rate, supply),
        Command::Reset => chip_core::says(core, 0x06),
        Command::BlockErase { start } => chip_work::block_erase(
            part, core, start, code, data, sums,
        ),
        Command::BlankCheck { start, end, d01 } => {
            chip_work::blank_check(part, core, start, end, d01, code, data)
        }
        Command::Programming { start, end } => chip_work::programming(part, core, start, end),
        Command::Verify { start, end } => chip_work::verify(part, core, start, end),
        Command::Checksum { start, end } => {
            chip_work::checksum(part, core, start, end, code, data, sums)
        }
        Command::SignatureGet => Done {
            reply: Reply::Signature,
            core,
        },
        Command::SecurityGet => Done {
            reply: Reply::Security,
            core,
        },
        Command::SecuritySet => chip_core::says(chip_core::awaiting(core, 0xA0, 0, 0), 0x06),
        Command::SecurityRelease => chip_work::release(part, core, code, data),
    }
}

fn reading_does(
    part: Part,
    core: Core,
    reading: Result<Command, Misread>,
    code: &mut [u8],
    data: &mut [u8],
    sums: &mut [u16; 72],
) -> Done
    ensures { effect result (memory code.new «data».new sums.new)
        ≡ reading_does reading part core (memory code.old «data».old sums.old) }
{
    match reading {
        Err(Misread::Unknown) => chip_core::says(core, 0x04),
        Err(Misread::UnfitLen) => Done {
            reply: Reply::BadFrame(Judgement::UnfitLength),
            core,
        },
        Ok(c) => work(part, core, c, code, data, sums),
    }
}

// What a complete command frame does.
pub fn command(
    part: Part,
    core: Core,
    bytes: &[u8],
    code: &mut [u8],
    data: &mut [u8],
    sums: &mut [u16; 72],
) -> Done
    ensures { effect result (memory code.new «data».new sums.new)
        ≡ command_does part core bytes.now (memory code.old «data».old sums.old) }
{
    let j = frame::judgement::judge(frame::Footer::Last, bytes);
    if !j.is_good() {
        return Done {
            reply: Reply::BadFrame(j),
            core,
        };
    }
    let payload = frame::payload(bytes);
    if !allowed_in(core.phase, lent::byte_at(payload, 0)) {
        return chip_core::says(core, 0x04);
    }
    reading_does(part, core, commands::read(payload), code, data, sums)
}
