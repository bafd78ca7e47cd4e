// The calls on the dock. Each is given the whole job and its image; a refused call changes nothing. Document 01, "The dock's flow".
ghost use Rattle.std.specs.Prelude.{◌≡◌, ◌+◌, ◌<◌, ◌^◌, Ok};
ghost use Rattle.dock_flow.specs.Flow.{answered, silence};
ghost use Rattle.dock.specs.Calls.{begin_of, asking, ask_of, hear_of, standing, turning, wants_of};

use super::{Account, Report, Stepped};
use dock_flow::{Turned, frames};
use dock_job::refusals::Call;
use dock_job::{Dock, Job, Stage, refusals};
use part::refusal::Refusal;

// A dock before its first frame.
#[tactic(auto, unfolding(crate::specs::Calls::begin_of, crate::specs::Calls::starting, crate::specs::Calls::fresh_dock))]
pub fn begin(job: Job, image: &[u8]) -> Stepped
    ensures { result ≡ begin_of job image.now }
{
    let verdict = refusals::verdict(job, image.len(), Call::Begins);
    Stepped {
        report: verdict.and(Ok(Report::Due)),
        dock: Dock {
            stage: dock_flow::first_stage(job),
            awaited: false,
            retries: 0,
            frames: 0,
        },
    }
}

// The next frame, put at the start of the room.
pub fn ask(job: Job, image: &[u8], dock: Dock, room: &mut [u8]) -> Stepped
    ensures { asking result room.new ≡ ask_of job image.now dock room.old }
{
    match frames::hand(job, image, dock, room) {
        Err(refusal) => Stepped {
            report: Err(refusal),
            dock,
        },
        Ok(n) => Stepped {
            report: Ok(Report::Put(n)),
            dock: Dock {
                awaited: true,
                frames: dock.frames + 1,
                ..dock
            },
        },
    }
}

#[tactic(auto, unfolding(crate::specs::Calls::standing))]
fn standing(stage: Stage, dock: Dock) -> Result<Report, Refusal>
    ensures { result ≡ standing stage dock }
{
    match stage {
        Stage::SetUp(_) | Stage::InBlock { .. } => Ok(Report::Due),
        Stage::Over(ending) => Ok(Report::Ended(Account {
            ending,
            frames: dock.frames,
            retries: dock.retries,
        })),
    }
}

#[tactic(auto, unfolding(crate::specs::Calls::turning))]
fn moved(dock: Dock, turned: Turned) -> Stepped
    requires { dock.retries + turned.spent < 2 ^ 32 }
    ensures { result ≡ turning (Ok tt) dock turned }
{
    let after = Dock {
        stage: turned.stage,
        awaited: false,
        retries: dock.retries + turned.spent,
        ..dock
    };
    Stepped {
        report: standing(after.stage, after),
        dock: after,
    }
}

// The whole answer to the frame that was handed out.
pub fn answer(job: Job, image: &[u8], dock: Dock, bytes: &[u8]) -> Stepped
    ensures { result ≡ hear_of job image.now dock (answered bytes.now) }
{
    match refusals::verdict(job, image.len(), Call::Tells(dock)) {
        Err(refusal) => Stepped {
            report: Err(refusal),
            dock,
        },
        Ok(()) => {
            let turned = dock_flow::after_answer(job, dock.retries, dock.stage, bytes);
            moved(dock, turned)
        }
    }
}

// No answer came to the frame that was handed out.
pub fn timeout(job: Job, image: &[u8], dock: Dock) -> Stepped
    ensures { result ≡ hear_of job image.now dock silence }
{
    match refusals::verdict(job, image.len(), Call::Tells(dock)) {
        Err(refusal) => Stepped {
            report: Err(refusal),
            dock,
        },
        Ok(()) => moved(dock, dock_flow::after_timeout(job, dock.stage)),
    }
}

// How many bytes are still wanted of the awaited answer, before it can be readable.
#[tactic(auto, unfolding(crate::specs::Calls::wants_of, crate::specs::Calls::wants_by))]
pub fn wants(job: Job, image: &[u8], dock: Dock, bytes: &[u8]) -> usize
    ensures { result ≡ wants_of job image.now dock bytes.now }
{
    match refusals::verdict(job, image.len(), Call::Tells(dock)) {
        Err(_) => 0,
        Ok(()) => dock_flow::wanted(job, dock.stage, bytes),
    }
}
