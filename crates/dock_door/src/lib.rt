// The dock's calls for C and Rust. Each takes a part as 19 bytes, a job as 11 and the image, and a dock's state as 26 lent bytes, and answers a refusal number, 0
// where it was not refused; what else it tells goes into lent numbers. Document 01, "The dock's flow" and "Refusal numbers".
#![tactic(auto)]

ghost use Rattle.std.specs.Prelude.{◌≡◌};
ghost use Rattle.dock_flow.specs.Flow.{answered, silence};
ghost use Rattle.dock_job.specs.Refusals.{call_verdict};
ghost use Rattle.dock_job.specs.declared.refusals.Call.TheVariants.{Begins};
ghost use Rattle.dock_layout.specs.Job.{job_in};
ghost use Rattle.dock_door.specs.Calls.{ask_through, ask_told, ending_number, figures_of, hear_through, hear_told, heard_as};
ghost use Rattle.dock_door.specs.Calls.{no_state, start_through, start_told, wants_through};
ghost use Rattle.dock_door.specs.Inner.{call_number};
ghost use Rattle.dock.specs.Calls.{hear_of};
ghost use Rattle.part.specs.Refusal.{number};

use dock::{Report, Stepped, calls};
use dock_job::refusals::Call;
use dock_job::{Dock, Failure, Job, refusals};
use dock_layout::job;
use part::refusal::Refusal;

// A report in numbers.
#[derive(Clone, Copy)]
pub struct Figures {
    pub bytes: usize,
    pub ended: u32,
    pub frames: u32,
    pub retries: u32,
}

// What a call answers: a refusal's number, 0 where there is none.
#[tactic(auto, unfolding(crate::specs::Inner::call_number))]
fn number_of(call: Result<(), Refusal>) -> u32
    ensures { result ≡ call_number call }
{
    match call {
        Err(refusal) => u32::from(refusal.number()),
        Ok(()) => 0,
    }
}

// Bytes that are no state: the job's refusals come first.
#[tactic(auto, unfolding(crate::specs::Calls::no_state))]
fn no_state(job: Job, image: usize) -> Refusal
    ensures { number result ≡ no_state (call_verdict job image Begins) }
{
    match refusals::verdict(job, image, Call::Begins) {
        Err(refusal) => refusal,
        Ok(()) => Refusal::BadState,
    }
}

#[tactic(auto, unfolding(crate::specs::Calls::ending_number))]
fn ending_number(ending: Result<(), Failure>) -> u32
    ensures { result ≡ ending_number ending }
{
    match ending {
        Ok(()) => 1,
        Err(_) => 2,
    }
}

#[tactic(auto, unfolding(crate::specs::Calls::figures_of))]
fn figures_of(report: Report) -> Figures
    ensures { result ≡ figures_of report }
{
    let none = Figures {
        bytes: 0,
        ended: 0,
        frames: 0,
        retries: 0,
    };
    match report {
        Report::Due => none,
        Report::Put(bytes) => Figures { bytes, ..none },
        Report::Ended(account) => Figures {
            bytes: 0,
            ended: ending_number(account.ending),
            frames: account.frames,
            retries: account.retries,
        },
    }
}

#[tactic(auto, unfolding(crate::specs::Calls::heard_as))]
fn hear_of(job: Job, image: &[u8], dock: Dock, answer: Option<&[u8]>) -> Stepped
    ensures { result ≡ hear_of job image.now dock (heard_as answer.entry) }
{
    match answer {
        Some(bytes) => calls::answer(job, image, dock, bytes),
        None => calls::timeout(job, image, dock),
    }
}

// The whole answer to the frame that was handed out, where one came: what hearing left, into the lent state and numbers.
fn hear(
    job: Job,
    image: &[u8],
    state: &mut [u8; 26],
    answer: Option<&[u8]>,
    told: &mut [u64; 3],
) -> Result<(), Refusal>
    ensures { hear_told (call_number result) told.new state.new
        ≡ hear_through job image.now told.old state.old (heard_as answer.entry) }
{
    if !dock_layout::is_dock(state) {
        return Err(no_state(job, image.len()));
    }
    let s = hear_of(job, image, dock_layout::dock_in(state), answer);
    let report = s.report?;
    let figures = figures_of(report);
    dock_layout::lay_dock(s.dock, state);
    *told = [
        u64::from(figures.ended),
        u64::from(figures.frames),
        u64::from(figures.retries),
    ];
    Ok(())
}

// A dock before its first frame, into the lent state.
#[tactic(auto, unfolding(crate::specs::Calls::told_started, crate::specs::Inner::call_number))]
pub fn zc_start(part: &[u8; 19], job: &[u8; 11], image: &[u8], state: &mut [u8; 26]) -> u32
    ensures { start_told result state.new
        ≡ start_through (job_in part.now job.now) image.now state.old }
{
    let s = calls::begin(job::job_in(part, job), image);
    match s.report {
        Err(refusal) => number_of(Err(refusal)),
        Ok(_) => {
            dock_layout::lay_dock(s.dock, state);
            0
        }
    }
}

// The next frame, put at the start of the room: told is how many bytes.
pub fn zc_ask(
    part: &[u8; 19],
    job: &[u8; 11],
    image: &[u8],
    state: &mut [u8; 26],
    room: &mut [u8],
    told: &mut [u64; 1],
) -> u32
    ensures { ask_told result told.new state.new room.new
        ≡ ask_through (job_in part.now job.now) image.now told.old state.old room.old }
{
    let j = job::job_in(part, job);
    if !dock_layout::is_dock(state) {
        return number_of(Err(no_state(j, image.len())));
    }
    let s = calls::ask(j, image, dock_layout::dock_in(state), room);
    match s.report {
        Err(refusal) => number_of(Err(refusal)),
        Ok(report) => {
            let figures = figures_of(report);
            dock_layout::lay_dock(s.dock, state);
            *told = [figures.bytes as u64];
            0
        }
    }
}

// The whole answer to the frame that was handed out.
#[tactic(auto, unfolding(crate::specs::Calls::heard_as))]
pub fn zc_answer(
    part: &[u8; 19],
    job: &[u8; 11],
    image: &[u8],
    state: &mut [u8; 26],
    answer: &[u8],
    told: &mut [u64; 3],
) -> u32
    ensures { hear_told result told.new state.new
        ≡ hear_through (job_in part.now job.now) image.now told.old state.old (answered answer.now) }
{
    number_of(hear(job::job_in(part, job), image, state, Some(answer), told))
}

// No answer came to the frame that was handed out.
#[tactic(auto, unfolding(crate::specs::Calls::heard_as))]
pub fn zc_timeout(
    part: &[u8; 19],
    job: &[u8; 11],
    image: &[u8],
    state: &mut [u8; 26],
    told: &mut [u64; 3],
) -> u32
    ensures { hear_told result told.new state.new
        ≡ hear_through (job_in part.now job.now) image.now told.old state.old silence }
{
    number_of(hear(job::job_in(part, job), image, state, None, told))
}

// How many bytes are still wanted of the answer, before it can be readable; 0: hand it in.
pub fn zc_wants(
    part: &[u8; 19],
    job: &[u8; 11],
    image: &[u8],
    state: &[u8; 26],
    answer: &[u8],
) -> usize
    ensures { result ≡ wants_through (job_in part.now job.now) image.now state.now answer.now }
{
    if !dock_layout::is_dock(state) {
        return 0;
    }
    calls::wants(
        job::job_in(part, job),
        image,
        dock_layout::dock_in(state),
        answer,
    )
}
