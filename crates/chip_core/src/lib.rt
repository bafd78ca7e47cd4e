// The chip's record, without what it has collected, and what a complete frame does to it: document 01, "Phases" and "Commands". Commands and pages stand on it.
#![tactic(auto)]

ghost use Rattle.std.specs.Prelude.{◌≡◌};
ghost use Rattle.chip_core.specs.Effect.{awaiting, bytes_in, entered, flash, says};
ghost use Rattle.chip_core.specs.Hearing.{hearing};

use chip_options::Options;
use chip_reply::Reply;
use part::Area;

// What phase 4 carries. Next and last address are 0 from A0h. Whether a page of 13h has differed is remembered for the last page's status: document 02, §2.
#[derive(Clone, Copy)]
pub struct Awaited {
    pub command: u8,
    pub next: usize,
    pub last: usize,
    pub differed: bool,
}

// The phases of the document, 1 to 4.
#[derive(Clone, Copy)]
pub enum Phase {
    ModeByte,
    Setup,
    Ready,
    Awaiting(Awaited),
}

// What a phase hears: no frame, a command frame, or a data frame with the record of phase 4.
#[derive(Clone, Copy)]
pub enum Hearing {
    HearsNothing,
    HearsCommands,
    HearsData(Awaited),
}

// What commands work on: all of the chip but what it has collected.
#[derive(Clone, Copy)]
pub struct Core {
    pub options: Options,
    pub rate: u8,
    pub phase: Phase,
}

// What a complete frame did, beside flash and the kept sums: the reply, and the record after it.
#[derive(Clone, Copy)]
pub struct Done {
    pub reply: Reply,
    pub core: Core,
}

impl Phase {
    #[tactic(auto, unfolding(crate::specs::Hearing::hearing))]
    pub fn hearing(self) -> Hearing
        ensures { result ≡ hearing self }
    {
        match self {
            Phase::ModeByte => Hearing::HearsNothing,
            Phase::Setup | Phase::Ready => Hearing::HearsCommands,
            Phase::Awaiting(w) => Hearing::HearsData(w),
        }
    }
}

impl Core {
    // The record in another phase.
    pub fn entered(self, phase: Phase) -> Core
        ensures { result ≡ entered self phase }
    {
        Core { phase, ..self }
    }
}

pub fn says(core: Core, status: u8) -> Done
    ensures { result ≡ says status core }
{
    Done {
        reply: Reply::Status(status),
        core,
    }
}

pub fn awaiting(core: Core, command: u8, next: usize, last: usize) -> Core
    ensures { result ≡ awaiting command next last core }
{
    core.entered(Phase::Awaiting(Awaited {
        command,
        next,
        last,
        differed: false,
    }))
}

// The bytes of an area, of the two slices that are lent.
pub fn area_bytes<'a>(area: Area, code: &'a [u8], data: &'a [u8]) -> &'a [u8]
    ensures { result.now ≡ bytes_in area (flash code.now «data».now) }
{
    match area {
        Area::CodeFlash => code,
        Area::DataFlash => data,
    }
}
