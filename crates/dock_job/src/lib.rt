// A job for the dock, and the dock's state while it carries one out: document 01, "The dock's flow". Which calls are refused stands in `refusals`.
#![tactic(auto)]

ghost use Rattle.std.specs.Prelude.{◌≡◌};
ghost use Rattle.part.specs.Part.{range_of};
ghost use Rattle.dock_job.specs.Job.{area_of, blocks_of, size_of, pages_of, range_length, bound, is_over};

use frame::judgement::Judgement;
use part::{Area, Part, Range};

pub mod refusals;

// The image is lent to each call beside the job. The numbers are tested as they are handed in, and none wraps into range.
#[derive(Clone, Copy)]
pub struct Job {
    pub part: Part,
    pub start: u32,
    pub end: u32,
    pub rate: u32,
    pub supply: u32,
    pub retries: u32,
}

// The setup's commands: 9Ah, 00h and C0h.
#[derive(Clone, Copy)]
pub enum Setup {
    BaudRate,
    ResetChip,
    SiliconSignature,
}

// Why a job failed.
#[derive(Clone, Copy)]
pub enum Cause {
    UnexpectedStatus,
    Mismatch,
    Unreadable,
    TimedOut,
}

// A failure names its cause, the frame (its command, and its page if it is one), the status and the block; and the fault of an unreadable reply, else Good.
#[derive(Clone, Copy)]
pub struct Failure {
    pub cause: Cause,
    pub command: u8,
    pub page: Option<u32>,
    pub status: u8,
    pub block: Option<u32>,
    pub fault: Judgement,
}

// The frames of a block, each page with its number.
#[derive(Clone, Copy)]
pub enum Work {
    Blank,
    Erase,
    Program,
    ProgramPage(u32),
    VerifyBlock,
    VerifyPage(u32),
}

// Which frame of the flow is due or was sent last: a setup command, or one of a block, counted in the job from 0; or that the job is over.
#[derive(Clone, Copy)]
pub enum Stage {
    SetUp(Setup),
    InBlock { block: u32, work: Work },
    Over(Result<(), Failure>),
}

// The stage, whether the answer to its frame is awaited, and the retries and frames used.
#[derive(Clone, Copy)]
pub struct Dock {
    pub stage: Stage,
    pub awaited: bool,
    pub retries: u32,
    pub frames: u32,
}

impl Job {
    fn range(self) -> Option<Range>
        ensures { result ≡ range_of self.part self.start self.end }
    {
        self.part.range(self.start as usize, self.end as usize)
    }

    #[tactic(auto, unfolding(crate::specs::Job::area_in))]
    pub fn area(self) -> Area
        ensures { result ≡ area_of self }
    {
        self.range().map_or(Area::CodeFlash, |range| range.area)
    }

    #[tactic(auto, unfolding(crate::specs::Job::blocks_in))]
    pub fn blocks(self) -> usize
        ensures { result ≡ blocks_of self }
    {
        self.range().map_or(0, |range| range.count)
    }

    pub fn block_size(self) -> usize
        ensures { result ≡ size_of self }
    {
        self.part.block_size(self.area())
    }

    pub fn pages(self) -> usize
        ensures { result ≡ pages_of self }
    {
        self.part.pages(self.area())
    }

    fn range_length(self) -> usize
        ensures { result ≡ range_length self }
    {
        self.blocks() * self.block_size()
    }

    // The most frames that the job can take.
    fn bound(self) -> usize
        ensures { result ≡ bound self }
    {
        3 + (4 + 2 * self.pages()) * (self.blocks() + self.retries as usize)
    }
}

impl Stage {
    #[tactic(auto, unfolding(crate::specs::Job::is_over))]
    pub fn is_over(self) -> bool
        ensures { result ≡ is_over self }
    {
        matches!(self, Stage::Over(_))
    }
}
