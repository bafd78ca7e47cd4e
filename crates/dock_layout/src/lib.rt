// How a dock's state crosses the door as bytes: one layout, read and written here alone. A job's stands in `job`.
#![tactic(auto)]

ghost use Rattle.std.specs.Prelude.{◌≡◌};
ghost use Rattle.lent.specs.Lent.{same};
ghost use Rattle.dock_layout.specs.Layout.{bytes_with, cause_in, cause_number, dock_bytes, dock_in, ending_in, fault_at, judgement_in};
ghost use Rattle.dock_layout.specs.Layout.{flat_ending, flat_in, flat_of, flat_work, is_dock, is_named, named, named_in, plain, setup_in, setup_number};
ghost use Rattle.dock_layout.specs.Layout.{stage_in, work_in};

use dock_job::{Cause, Dock, Failure, Setup, Stage, Work};
use frame::judgement::{Fault, Judgement};

pub mod job;

// A stage in numbers: which it is, the block and the page that it names, and of a failure the cause, the command, the status and the fault.
#[derive(Clone, Copy)]
pub struct Flat {
    pub stage: u8,
    pub block: Option<u32>,
    pub page: Option<u32>,
    pub cause: u8,
    pub command: u8,
    pub status: u8,
    pub fault: Fault,
}

#[tactic(auto, unfolding(crate::specs::Layout::cause_number))]
fn cause_number(cause: Cause) -> u8
    ensures { result ≡ cause_number cause }
{
    match cause {
        Cause::UnexpectedStatus => 1,
        Cause::Mismatch => 2,
        Cause::Unreadable => 3,
        Cause::TimedOut => 4,
    }
}

fn cause_in(n: u8) -> Cause
    ensures { result ≡ cause_in n }
{
    match n {
        1 => Cause::UnexpectedStatus,
        2 => Cause::Mismatch,
        3 => Cause::Unreadable,
        _ => Cause::TimedOut,
    }
}

fn judgement_in(n: u8, at: u16) -> Judgement
    ensures { result ≡ judgement_in n at }
{
    match n {
        1 => Judgement::WrongFooter(at),
        2 => Judgement::WrongSum(at),
        3 => Judgement::UnfitLength,
        4 => Judgement::WrongFirst,
        _ => Judgement::Good,
    }
}

fn setup_number(setup: Setup) -> u8
    ensures { result ≡ setup_number setup }
{
    match setup {
        Setup::BaudRate => 1,
        Setup::ResetChip => 2,
        Setup::SiliconSignature => 3,
    }
}

fn plain(stage: u8, block: Option<u32>, page: Option<u32>) -> Flat
    ensures { result ≡ plain stage block page }
{
    Flat {
        stage,
        block,
        page,
        cause: 0,
        command: 0x00,
        status: 0x00,
        fault: Fault {
            number: 0,
            place: 0,
        },
    }
}

#[tactic(auto, unfolding(crate::specs::Layout::flat_work))]
fn flat_work(block: u32, work: Work) -> Flat
    ensures { result ≡ flat_work block work }
{
    match work {
        Work::Blank => plain(4, Some(block), None),
        Work::Erase => plain(5, Some(block), None),
        Work::Program => plain(6, Some(block), None),
        Work::ProgramPage(page) => plain(7, Some(block), Some(page)),
        Work::VerifyBlock => plain(8, Some(block), None),
        Work::VerifyPage(page) => plain(9, Some(block), Some(page)),
    }
}

#[tactic(auto, unfolding(crate::specs::Layout::flat_ending))]
fn flat_ending(ending: Result<(), Failure>) -> Flat
    ensures { result ≡ flat_ending ending }
{
    match ending {
        Ok(()) => plain(10, None, None),
        Err(failure) => Flat {
            stage: 11,
            block: failure.block,
            page: failure.page,
            cause: cause_number(failure.cause),
            command: failure.command,
            status: failure.status,
            fault: failure.fault.fault(),
        },
    }
}

#[tactic(auto, unfolding(crate::specs::Layout::flat_of))]
fn flat_of(stage: Stage) -> Flat
    ensures { result ≡ flat_of stage }
{
    match stage {
        Stage::SetUp(setup) => plain(setup_number(setup), None, None),
        Stage::InBlock { block, work } => flat_work(block, work),
        Stage::Over(ending) => flat_ending(ending),
    }
}

#[tactic(auto, unfolding(crate::specs::Layout::is_named))]
fn is_named(given: Option<u32>) -> u8
    ensures { result ≡ is_named given }
{
    u8::from(given.is_some())
}

#[tactic(auto, unfolding(crate::specs::Layout::named))]
fn named(given: Option<u32>) -> u32
    ensures { result ≡ named given }
{
    given.unwrap_or(0)
}

fn bytes_with(flat: Flat, awaited: u8, retries: u32, frames: u32) -> [u8; 26]
    ensures { result ≡ bytes_with flat awaited retries frames }
{
    let r = retries.to_le_bytes();
    let f = frames.to_le_bytes();
    let b = named(flat.block).to_le_bytes();
    let p = named(flat.page).to_le_bytes();
    let place = flat.fault.place.to_le_bytes();
    [
        flat.stage,
        awaited,
        r[0],
        r[1],
        r[2],
        r[3],
        f[0],
        f[1],
        f[2],
        f[3],
        is_named(flat.block),
        b[0],
        b[1],
        b[2],
        b[3],
        is_named(flat.page),
        p[0],
        p[1],
        p[2],
        p[3],
        flat.cause,
        flat.command,
        flat.status,
        flat.fault.number,
        place[0],
        place[1],
    ]
}

#[tactic(auto, unfolding(crate::specs::Layout::dock_bytes))]
fn dock_bytes(dock: Dock) -> [u8; 26]
    ensures { result ≡ dock_bytes dock }
{
    bytes_with(
        flat_of(dock.stage),
        u8::from(dock.awaited),
        dock.retries,
        dock.frames,
    )
}

fn named_in(given: u8, n: u32) -> Option<u32>
    ensures { result ≡ named_in given n }
{
    (given == 1).then_some(n)
}

#[tactic(auto, unfolding(crate::specs::Layout::fault_at))]
fn fault_at(state: &[u8]) -> Fault
    ensures { result ≡ fault_at state.now }
{
    Fault {
        number: lent::byte_at(state, 23),
        place: u16::from_le_bytes(numbers::bytes_at(state, 24)),
    }
}

#[tactic(auto, unfolding(crate::specs::Layout::flat_in))]
fn flat_in(state: &[u8]) -> Flat
    ensures { result ≡ flat_in state.now }
{
    Flat {
        stage: lent::byte_at(state, 0),
        block: named_in(
            lent::byte_at(state, 10),
            u32::from_le_bytes(numbers::bytes_at(state, 11)),
        ),
        page: named_in(
            lent::byte_at(state, 15),
            u32::from_le_bytes(numbers::bytes_at(state, 16)),
        ),
        cause: lent::byte_at(state, 20),
        command: lent::byte_at(state, 21),
        status: lent::byte_at(state, 22),
        fault: fault_at(state),
    }
}

fn setup_in(n: u8) -> Setup
    ensures { result ≡ setup_in n }
{
    match n {
        1 => Setup::BaudRate,
        2 => Setup::ResetChip,
        _ => Setup::SiliconSignature,
    }
}

fn work_in(n: u8, page: u32) -> Work
    ensures { result ≡ work_in n page }
{
    match n {
        4 => Work::Blank,
        5 => Work::Erase,
        6 => Work::Program,
        7 => Work::ProgramPage(page),
        8 => Work::VerifyBlock,
        _ => Work::VerifyPage(page),
    }
}

fn ending_in(flat: Flat) -> Result<(), Failure>
    ensures { result ≡ ending_in flat }
{
    if flat.stage == 10 {
        return Ok(());
    }
    Err(Failure {
        cause: cause_in(flat.cause),
        command: flat.command,
        page: flat.page,
        status: flat.status,
        block: flat.block,
        fault: judgement_in(flat.fault.number, flat.fault.place),
    })
}

fn stage_in(flat: Flat) -> Stage
    ensures { result ≡ stage_in flat }
{
    if flat.stage < 4 {
        return Stage::SetUp(setup_in(flat.stage));
    }
    if flat.stage < 10 {
        return Stage::InBlock {
            block: named(flat.block),
            work: work_in(flat.stage, named(flat.page)),
        };
    }
    Stage::Over(ending_in(flat))
}

#[tactic(auto, unfolding(crate::specs::Layout::dock_in))]
pub fn dock_in(state: &[u8; 26]) -> Dock
    ensures { result ≡ dock_in state.now }
{
    Dock {
        stage: stage_in(flat_in(state)),
        awaited: lent::byte_at(state, 1) == 1,
        retries: u32::from_le_bytes(numbers::bytes_at(state, 2)),
        frames: u32::from_le_bytes(numbers::bytes_at(state, 6)),
    }
}

// Compared one by one, up to the first that differs: many at once would wait for the bytes that were just written.
fn is_laid(back: &[u8], state: &[u8]) -> bool
    ensures { result ≡ same back.now state.now }
{
    back.len() == state.len() && back.iter().zip(state).all(|(a, b)| a == b)
}

#[tactic(auto, unfolding(crate::specs::Layout::is_dock))]
pub fn is_dock(state: &[u8; 26]) -> bool
    ensures { result ≡ is_dock state.now }
{
    let back = dock_bytes(dock_in(state));
    is_laid(&back, state)
}

// The dock's state into the lent bytes.
pub fn lay_dock(dock: Dock, state: &mut [u8; 26])
    ensures { state.new ≡ dock_bytes dock }
{
    *state = dock_bytes(dock);
}
