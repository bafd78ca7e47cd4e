// What is sent at a stage and what its answer looks like; its frame put into the room. Document 01, "The dock's flow", "Frames".
ghost use Rattle.std.specs.Prelude.{◌≡◌, true, ◌+◌, ◌*◌, ◌≤◌, length};
ghost use Rattle.part.specs.Rate.{accepts_rate};
ghost use Rattle.frame.specs.Frame.{data_frame, longest};
ghost use Rattle.dock_job.specs.Job.{range_length, size_of};
ghost use Rattle.part.specs.Part.{page_size};
ghost use Rattle.dock_job.specs.Refusals.{good_block, good_named_page, good_page, good_stage};
ghost use Rattle.dock_flow.specs.Frames.{last_page, stored_form, query_of, query_with, first_of_block, last_of_block, page_bytes, page_footer, frame_of, work_frame};
ghost use Rattle.dock_flow.specs.Frames.{frame_at, placed, placing, handing, hand_of};

use commands::Command;
use dock_answer::Form;
use dock_job::refusals::Call;
use dock_job::{Dock, Job, Setup, Stage, Work, refusals};
use frame::{Footer, wire};
use part::refusal::Refusal;

// The command of a stage's frame, the page and the block that a failure names, and what the answer looks like.
#[derive(Clone, Copy)]
pub struct Query {
    pub command: Command,
    pub page: Option<u32>,
    pub block: Option<u32>,
    pub form: Form,
}

#[tactic(auto, unfolding(crate::specs::Frames::last_page))]
pub(crate) fn is_last_page(job: Job, page: u32) -> bool
    ensures { result ≡ last_page job page }
{
    job.pages() <= (page as usize) + 1
}

fn stored_form(job: Job, page: u32) -> Form
    ensures { result ≡ stored_form job page }
{
    if is_last_page(job, page) {
        Form::OfLastPage
    } else {
        Form::OfPage
    }
}

fn first_of_block(job: Job, block: u32) -> usize
    ensures { (result ≡ first_of_block job block) × (result ≤ 0x2000000000000) }
{
    (job.start as usize) + (block as usize) * job.block_size()
}

fn last_of_block(job: Job, block: u32) -> usize
    ensures { result ≡ last_of_block job block }
{
    first_of_block(job, block) + (job.block_size() - 1)
}

fn query_of(command: Command, page: Option<u32>, block: Option<u32>, form: Form) -> Query
    ensures { result ≡ query_of command page block form }
{
    Query {
        command,
        page,
        block,
        form,
    }
}

// Rate and supply are beside the job, since those of one that is not accepted may be no bytes.
#[tactic(auto, unfolding(crate::specs::Frames::query_with))]
pub(crate) fn query_with(rate: u8, supply: u8, job: Job, stage: Stage) -> Query
    ensures { result ≡ query_with rate supply job stage }
{
    match stage {
        Stage::SetUp(s) => match s {
            Setup::BaudRate => {
                query_of(
                    Command::RateSet { rate, supply },
                    None,
                    None,
                    Form::WithRate,
                )
            }
            Setup::ResetChip => query_of(Command::Reset, None, None, Form::OneStatus),
            Setup::SiliconSignature => {
                query_of(Command::SignatureGet, None, None, Form::WithSignature)
            }
        },
        Stage::InBlock { block, work } => {
            let k = Some(block);
            let start = first_of_block(job, block);
            let end = last_of_block(job, block);
            match work {
                Work::Blank => query_of(
                    Command::BlankCheck {
                        start,
                        end,
                        d01: 0x00,
                    },
                    None,
                    k,
                    Form::OneStatus,
                ),
                Work::Erase => query_of(Command::BlockErase { start }, None, k, Form::OneStatus),
                Work::Program => {
                    query_of(
                        Command::Programming { start, end },
                        None,
                        k,
                        Form::OneStatus,
                    )
                }
                Work::ProgramPage(page) => query_of(
                    Command::Programming { start, end },
                    Some(page),
                    k,
                    stored_form(job, page),
                ),
                Work::VerifyBlock => {
                    query_of(Command::Verify { start, end }, None, k, Form::OneStatus)
                }
                Work::VerifyPage(page) => query_of(
                    Command::Verify { start, end },
                    Some(page),
                    k,
                    Form::OfPage,
                ),
            }
        }
        Stage::Over(_) => query_of(Command::Reset, None, None, Form::OneStatus),
    }
}

fn page_footer(job: Job, page: u32) -> Footer
    ensures { result ≡ page_footer job page }
{
    if is_last_page(job, page) {
        Footer::Last
    } else {
        Footer::More
    }
}

fn send_command(room: &mut [u8], command: Command) -> usize
    requires { longest ≤ length room.old }
    ensures { placed result room.new ≡ placing (frame_of command) room.old }
{
    commands::write(room, command).unwrap_or(0)
}

// Where the page's bytes begin in the image.
fn page_start(job: Job, block: u32, page: u32) -> usize
    requires { (good_block job block ≡ true) × (good_page job page ≡ true) }
    ensures { (result ≡ block * size_of job + page * page_size) × (result + page_size ≤ range_length job) × (result ≤ 0x2000000000000) }
{
    (block as usize) * job.block_size() + (page as usize) * part::page_size()
}

fn send_page(job: Job, image: &[u8], block: u32, page: u32, room: &mut [u8]) -> usize
    requires { (good_block job block ≡ true) × (good_page job page ≡ true) × (length image.now ≡ range_length job) × (longest ≤ length room.old) }
    ensures { placed result room.new ≡ placing (data_frame (page_bytes job image.now block page) (page_footer job page)) room.old }
{
    let at = page_start(job, block, page);
    let end = at + part::page_size();
    let footer = page_footer(job, page);
    let _ = wire::write_data(room, &image[at..end], footer);
    frame::LONGEST
}

fn send_work(
    job: Job,
    image: &[u8],
    block: u32,
    page: Option<u32>,
    command: Command,
    room: &mut [u8],
) -> usize
    requires { (good_block job block ≡ true) × (good_named_page job page ≡ true) × (length image.now ≡ range_length job) × (longest ≤ length room.old) }
    ensures { placed result room.new ≡ placing (work_frame job image.now block page command) room.old }
{
    match page {
        Some(number) => send_page(job, image, block, number, room),
        None => send_command(room, command),
    }
}

fn put(job: Job, image: &[u8], stage: Stage, room: &mut [u8]) -> usize
    requires { (accepts_rate job.part job.rate job.supply ≡ true) × (good_stage job stage ≡ true)
        × (length image.now ≡ range_length job) × (longest ≤ length room.old) }
    ensures { placed result room.new ≡ placing (frame_at job image.now stage) room.old }
{
    let query = query_with(job.rate as u8, job.supply as u8, job, stage);
    match stage {
        Stage::SetUp(_) => send_command(room, query.command),
        Stage::InBlock { block, .. } => {
            send_work(job, image, block, query.page, query.command, room)
        }
        Stage::Over(_) => 0,
    }
}

// The frame that is due, put at the start of the room, where the dock accepts the call; how many bytes it has.
pub fn hand(job: Job, image: &[u8], dock: Dock, room: &mut [u8]) -> Result<usize, Refusal>
    ensures { handing result room.new ≡ hand_of job image.now dock room.old }
{
    refusals::verdict(
        job,
        image.len(),
        Call::Asks {
            dock,
            room: room.len(),
        },
    )?;
    Ok(put(job, image, dock.stage, room))
}
