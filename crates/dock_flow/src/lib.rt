// The dock's flow, document 01: what follows the answer to the frame of a stage. The frames themselves stand in `frames`.
#![tactic(auto)]

ghost use Rattle.std.specs.Prelude.{◌≡◌};
ghost use Rattle.dock_job.specs.Job.{setup};
ghost use Rattle.dock_flow.specs.Flow.{block_from, first_stage, after_setup, after_work, next, says_not_blank, in_block, fails, retried, after_status, after_answer};
ghost use Rattle.dock_flow.specs.Flow.{answered, after_heard, after_timeout, wanted_at};

use dock_answer::Said;
use dock_job::{Cause, Failure, Job, Setup, Stage, Work};
use frame::judgement::Judgement;

pub mod frames;

// What an answer leads to: the stage after it, and the retries that it spent.
#[derive(Clone, Copy)]
pub struct Turned {
    pub stage: Stage,
    pub spent: u32,
}

// The first block that is left from this one on, or the end.
fn block_from(job: Job, block: usize) -> Stage
    ensures { result ≡ block_from job block }
{
    if block < job.blocks() {
        Stage::InBlock {
            block: block as u32,
            work: Work::Blank,
        }
    } else {
        Stage::Over(Ok(()))
    }
}

pub fn first_stage(job: Job) -> Stage
    ensures { result ≡ first_stage job }
{
    Stage::SetUp(Setup::BaudRate)
}

fn after_setup(job: Job, s: Setup) -> Stage
    ensures { result ≡ after_setup job s (setup job) }
{
    match s {
        Setup::BaudRate => Stage::SetUp(Setup::ResetChip),
        Setup::ResetChip => Stage::SetUp(Setup::SiliconSignature),
        Setup::SiliconSignature => block_from(job, 0),
    }
}

fn after_work(job: Job, block: u32, work: Work) -> Stage
    ensures { result ≡ after_work job block work }
{
    match work {
        Work::Blank | Work::Erase => Stage::InBlock {
            block,
            work: Work::Program,
        },
        Work::Program => Stage::InBlock {
            block,
            work: Work::ProgramPage(0),
        },
        Work::ProgramPage(page) if frames::is_last_page(job, page) => Stage::InBlock {
            block,
            work: Work::VerifyBlock,
        },
        Work::ProgramPage(page) => Stage::InBlock {
            block,
            work: Work::ProgramPage(page + 1),
        },
        Work::VerifyBlock => Stage::InBlock {
            block,
            work: Work::VerifyPage(0),
        },
        Work::VerifyPage(page) if frames::is_last_page(job, page) => {
            block_from(job, (block as usize) + 1)
        }
        Work::VerifyPage(page) => Stage::InBlock {
            block,
            work: Work::VerifyPage(page + 1),
        },
    }
}

#[tactic(auto, unfolding(crate::specs::Flow::next))]
fn next(job: Job, stage: Stage) -> Stage
    ensures { result ≡ next job stage }
{
    match stage {
        Stage::SetUp(s) => after_setup(job, s),
        Stage::InBlock { block, work } => after_work(job, block, work),
        Stage::Over(_) => stage,
    }
}

fn says_not_blank(job: Job, stage: Stage, status: u8) -> bool
    ensures { result ≡ says_not_blank job stage status }
{
    let query = frames::query_with(0, 0, job, stage);
    commands::com(query.command) == 0x32 && status == 0x1B
}

#[tactic(auto, unfolding(crate::specs::Flow::in_block))]
fn in_block(to: Work, stage: Stage) -> Stage
    ensures { result ≡ in_block to stage }
{
    match stage {
        Stage::InBlock { block, .. } => Stage::InBlock { block, work: to },
        Stage::SetUp(_) | Stage::Over(_) => stage,
    }
}

// The end of a job that fails at the frame of this stage.
fn fails(job: Job, cause: Cause, status: u8, fault: Judgement, stage: Stage) -> Turned
    ensures { result ≡ fails job cause status fault stage }
{
    let query = frames::query_with(0, 0, job, stage);
    let failure = Failure {
        cause,
        command: commands::com(query.command),
        page: query.page,
        status,
        block: query.block,
        fault,
    };
    Turned {
        stage: Stage::Over(Err(failure)),
        spent: 0,
    }
}

fn retried(job: Job, used: u32, stage: Stage, status: u8) -> Turned
    ensures { result ≡ retried job used stage status }
{
    if used < job.retries {
        return Turned {
            stage: in_block(Work::Blank, stage),
            spent: 1,
        };
    }
    fails(job, Cause::UnexpectedStatus, status, Judgement::Good, stage)
}

fn after_status(job: Job, used: u32, stage: Stage, status: u8, matches: bool) -> Turned
    ensures { result ≡ after_status job used stage status matches }
{
    match status {
        0x06 if matches => Turned {
            stage: next(job, stage),
            spent: 0,
        },
        0x06 => fails(job, Cause::Mismatch, 0x06, Judgement::Good, stage),
        _ if says_not_blank(job, stage, status) => Turned {
            stage: in_block(Work::Erase, stage),
            spent: 0,
        },
        0x07 | 0x15 => retried(job, used, stage, status),
        _ => fails(job, Cause::UnexpectedStatus, status, Judgement::Good, stage),
    }
}

// The decoded reply is taken apart; the other case ends the job with frame, status and fault.
#[tactic(auto, unfolding(crate::specs::Flow::after_answer))]
fn after_reading(
    job: Job,
    used: u32,
    stage: Stage,
    decoded: Option<Said>,
    fault: Judgement,
) -> Turned
    ensures { result ≡ after_answer job used stage decoded fault }
{
    let Some(Said { status, matches }) = decoded else {
        return fails(job, Cause::Unreadable, 0x00, fault, stage);
    };
    after_status(job, used, stage, status, matches)
}

// The whole answer to the frame of a stage, with so many retries used.
pub fn after_answer(job: Job, used: u32, stage: Stage, bytes: &[u8]) -> Turned
    ensures { result ≡ after_heard job used stage (answered bytes.now) }
{
    let query = frames::query_with(0, 0, job, stage);
    let answer = dock_answer::read(job.part, job.supply, query.form, bytes);
    after_reading(job, used, stage, answer.decoded, answer.fault)
}

pub fn after_timeout(job: Job, stage: Stage) -> Turned
    ensures { result ≡ after_timeout job stage }
{
    fails(job, Cause::TimedOut, 0x00, Judgement::Good, stage)
}

// How many bytes are still wanted of the answer to the frame of a stage.
pub fn wanted(job: Job, stage: Stage, bytes: &[u8]) -> usize
    ensures { result ≡ wanted_at job stage bytes.now }
{
    let query = frames::query_with(0, 0, job, stage);
    dock_answer::wanted(query.form, bytes)
}
