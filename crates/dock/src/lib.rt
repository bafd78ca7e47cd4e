// The dock: a job and answers in, the next frame out, and an account of how it ended. Document 01, "The dock's flow". The calls stand in `calls`.
#![tactic(auto)]

use dock_job::{Dock, Failure};
use part::refusal::Refusal;

pub mod calls;

// How a job ended, with the frames and retries used.
#[derive(Clone, Copy)]
pub struct Account {
    pub ending: Result<(), Failure>,
    pub frames: u32,
    pub retries: u32,
}

// What a call comes to that is not refused: a frame is due; one of so many bytes was put into the room; or the job ended.
#[derive(Clone, Copy)]
pub enum Report {
    Due,
    Put(usize),
    Ended(Account),
}

#[derive(Clone, Copy)]
pub struct Stepped {
    pub report: Result<Report, Refusal>,
    pub dock: Dock,
}
