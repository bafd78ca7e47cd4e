// Which calls are refused, and with which number: document 01, "Refusal numbers", for the dock.
ghost use Rattle.std.specs.Prelude.{◌≡◌};
ghost use Rattle.dock_job.specs.Refusals.{bad_job, bad_range, good_block, good_page, good_named_block, good_named_page, good_failure, good_ending, good_work, good_stage};
ghost use Rattle.dock_job.specs.Refusals.{good_dock, due, spent, bad_state, short_room, out_of_turn, call_verdict};

use super::{Dock, Failure, Job, Stage, Work};
use part::refusal::Refusal;

// The calls, with what is handed in beside job and image: to begin; to ask for a frame, with the state and the length of the room; to tell what
// was heard, with the state.
#[derive(Clone, Copy)]
pub enum Call {
    Begins,
    Asks { dock: Dock, room: usize },
    Tells(Dock),
}

fn is_bad_job(job: Job) -> bool
    ensures { result ≡ bad_job job }
{
    !job.part.is_described() || !part::rate::accepts(job.part, job.rate, job.supply)
}

#[tactic(auto, unfolding(crate::specs::Refusals::is_bad))]
fn is_bad_range(job: Job) -> bool
    ensures { result ≡ bad_range job }
{
    job.range().is_none()
}

#[tactic(auto, unfolding(crate::specs::Refusals::good_block))]
fn is_good_block(job: Job, block: u32) -> bool
    ensures { result ≡ good_block job block }
{
    (block as usize) < job.blocks()
}

#[tactic(auto, unfolding(crate::specs::Refusals::good_page))]
fn is_good_page(job: Job, page: u32) -> bool
    ensures { result ≡ good_page job page }
{
    (page as usize) < job.pages()
}

#[tactic(auto, unfolding(crate::specs::Refusals::good_named_block))]
fn is_good_named_block(job: Job, named: Option<u32>) -> bool
    ensures { result ≡ good_named_block job named }
{
    named.is_none_or(|block| is_good_block(job, block))
}

#[tactic(auto, unfolding(crate::specs::Refusals::good_named_page))]
fn is_good_named_page(job: Job, named: Option<u32>) -> bool
    ensures { result ≡ good_named_page job named }
{
    named.is_none_or(|page| is_good_page(job, page))
}

fn is_good_failure(job: Job, failure: Failure) -> bool
    ensures { result ≡ good_failure job failure }
{
    is_good_named_block(job, failure.block) && is_good_named_page(job, failure.page)
}

#[tactic(auto, unfolding(crate::specs::Refusals::good_ending))]
fn is_good_ending(job: Job, ending: Result<(), Failure>) -> bool
    ensures { result ≡ good_ending job ending }
{
    match ending {
        Ok(()) => true,
        Err(failure) => is_good_failure(job, failure),
    }
}

#[tactic(auto, unfolding(crate::specs::Refusals::good_work))]
fn is_good_work(job: Job, work: Work) -> bool
    ensures { result ≡ good_work job work }
{
    match work {
        Work::Blank | Work::Erase | Work::Program | Work::VerifyBlock => true,
        Work::ProgramPage(page) | Work::VerifyPage(page) => is_good_page(job, page),
    }
}

#[tactic(auto, unfolding(crate::specs::Refusals::good_stage))]
fn is_good_stage(job: Job, stage: Stage) -> bool
    ensures { result ≡ good_stage job stage }
{
    match stage {
        Stage::SetUp(_) => true,
        Stage::InBlock { block, work } => is_good_block(job, block) && is_good_work(job, work),
        Stage::Over(ending) => is_good_ending(job, ending),
    }
}

fn is_good_dock(job: Job, dock: Dock) -> bool
    ensures { result ≡ good_dock job dock }
{
    is_good_stage(job, dock.stage)
        && dock.retries <= job.retries
        && (dock.frames as usize) <= job.bound()
}

fn is_due(dock: Dock) -> bool
    ensures { result ≡ due dock }
{
    !dock.stage.is_over() && !dock.awaited
}

fn is_spent(job: Job, dock: Dock) -> bool
    ensures { result ≡ spent job dock }
{
    is_due(dock) && job.bound() <= (dock.frames as usize)
}

#[tactic(auto, unfolding(crate::specs::Refusals::bad_state))]
fn is_bad_state(job: Job, call: Call) -> bool
    ensures { result ≡ bad_state job call }
{
    match call {
        Call::Begins => false,
        Call::Asks { dock, .. } => !is_good_dock(job, dock) || is_spent(job, dock),
        Call::Tells(dock) => !is_good_dock(job, dock),
    }
}

#[tactic(auto, unfolding(crate::specs::Refusals::short_room))]
fn is_short_room(call: Call) -> bool
    ensures { result ≡ short_room call }
{
    match call {
        Call::Asks { room, .. } => room < 260,
        Call::Begins | Call::Tells(_) => false,
    }
}

#[tactic(auto, unfolding(crate::specs::Refusals::out_of_turn))]
fn is_out_of_turn(call: Call) -> bool
    ensures { result ≡ out_of_turn call }
{
    match call {
        Call::Begins => false,
        Call::Asks { dock, .. } => dock.stage.is_over() || dock.awaited,
        Call::Tells(dock) => dock.stage.is_over() || !dock.awaited,
    }
}

// 1, 5, 6, 7, 9, 4, 8: the first that applies decides.
pub fn verdict(job: Job, image: usize, call: Call) -> Result<(), Refusal>
    ensures { result ≡ call_verdict job image call }
{
    if is_bad_job(job) {
        return Err(Refusal::BadPart);
    }
    if is_bad_range(job) {
        return Err(Refusal::BadRange);
    }
    if image != job.range_length() {
        return Err(Refusal::ImageLength);
    }
    if 15 < job.retries {
        return Err(Refusal::ManyRetries);
    }
    if is_bad_state(job, call) {
        return Err(Refusal::BadState);
    }
    if is_short_room(call) {
        return Err(Refusal::ShortRoom);
    }
    if is_out_of_turn(call) {
        return Err(Refusal::OutOfTurn);
    }
    Ok(())
}
