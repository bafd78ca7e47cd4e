// How a chip's state crosses the door as bytes: one layout, read and written here alone. What bars a call on such bytes stands in `admission`,
// and what is written without reading the whole state in `in_place`.
#![tactic(auto)]

ghost use Rattle.std.specs.Prelude.{◌≡◌, drop, take};
ghost use Rattle.numbers.specs.Numbers.{number_at};
ghost use Rattle.lent.specs.Lent.{all_are};
ghost use Rattle.chip_layout.specs.Layout.{awaited_held, awaited_of, chip_in, collector_in, core_in};
ghost use Rattle.chip_layout.specs.Layout.{head_of, is_state, chip_bytes, nothing_awaited, phase_in, phase_number};

use chip_core::{Awaited, Core, Phase};
use chip_options::Options;
use chip_state::Chip;
use frame::collector::Collector;

pub mod admission;
pub mod in_place;

// How many bytes a state has.
pub const STATE_SIZE: usize = 294;

fn number8(state: &[u8; STATE_SIZE], at: usize) -> usize
    ensures { result ≡ number_at 8 at state.now }
{
    usize::from_le_bytes(numbers::bytes_at(state, at))
}

// Whether neither command nor address is said to be awaited.
fn is_nothing_awaited(state: &[u8; STATE_SIZE]) -> bool
    ensures { result ≡ all_are 0x00 (take 17 (drop 8 state.now)) }
{
    lent::are_all(&state[8..25], 0x00)
}

fn is_state(state: &[u8; STATE_SIZE]) -> bool
    ensures { result ≡ is_state state.now }
{
    let differed = state[293];
    match state[7] {
        1..=3 => differed == 0 && is_nothing_awaited(state),
        4 => differed <= 1,
        _ => false,
    }
}

fn phase_in(n: u8, w: Awaited) -> Phase
    ensures { result ≡ phase_in n w }
{
    match n {
        1 => Phase::ModeByte,
        2 => Phase::Setup,
        3 => Phase::Ready,
        _ => Phase::Awaiting(w),
    }
}

#[tactic(auto, unfolding(crate::specs::Layout::awaited_held))]
fn awaited_held(state: &[u8; STATE_SIZE]) -> Awaited
    ensures { result ≡ awaited_held state.now }
{
    Awaited {
        command: state[8],
        next: number8(state, 9),
        last: number8(state, 17),
        differed: state[293] == 1,
    }
}

#[tactic(auto, unfolding(crate::specs::Layout::collector_in))]
fn collector_in(state: &[u8; STATE_SIZE]) -> Collector
    ensures { result ≡ collector_in state.now }
{
    let len = number8(state, 25);
    let mut bytes = [0; frame::LONGEST];
    bytes.copy_from_slice(&state[33..293]);
    Collector::restored(bytes, len)
}

fn core_in(state: &[u8; STATE_SIZE]) -> Core
    ensures { result ≡ core_in state.now }
{
    Core {
        options: Options::read(state),
        rate: state[6],
        phase: phase_in(state[7], awaited_held(state)),
    }
}

#[tactic(auto, unfolding(crate::specs::Layout::chip_in))]
pub fn chip_in(state: &[u8; STATE_SIZE]) -> Chip
    ensures { result ≡ chip_in state.now }
{
    Chip {
        core: core_in(state),
        collector: collector_in(state),
    }
}

fn phase_number(phase: Phase) -> u8
    ensures { result ≡ phase_number phase }
{
    match phase {
        Phase::ModeByte => 1,
        Phase::Setup => 2,
        Phase::Ready => 3,
        Phase::Awaiting(_) => 4,
    }
}

fn nothing_awaited() -> Awaited
    ensures { result ≡ nothing_awaited }
{
    Awaited {
        command: 0x00,
        next: 0,
        last: 0,
        differed: false,
    }
}

#[tactic(auto, unfolding(crate::specs::Layout::awaited_of))]
fn awaited_of(phase: Phase) -> Awaited
    ensures { result ≡ awaited_of phase }
{
    match phase {
        Phase::ModeByte | Phase::Setup | Phase::Ready => nothing_awaited(),
        Phase::Awaiting(w) => w,
    }
}

fn head(options: Options, rate: u8, phase: u8, command: u8) -> [u8; 9]
    ensures { result ≡ head_of options rate phase command }
{
    let [start_low, start_high, ..] = options.start.to_le_bytes();
    let [end_low, end_high, ..] = options.end.to_le_bytes();
    [
        options.flags,
        options.boot,
        start_low,
        start_high,
        end_low,
        end_high,
        rate,
        phase,
        command,
    ]
}

// The chip's state into the lent bytes.
pub fn lay_chip(chip: Chip, state: &mut [u8; STATE_SIZE])
    ensures { state.new ≡ chip_bytes chip }
{
    let Chip { core, collector } = chip;
    let awaited = awaited_of(core.phase);
    let first = head(
        core.options,
        core.rate,
        phase_number(core.phase),
        awaited.command,
    );
    state[..9].copy_from_slice(&first);
    state[9..17].copy_from_slice(&awaited.next.to_le_bytes());
    state[17..25].copy_from_slice(&awaited.last.to_le_bytes());
    state[25..33].copy_from_slice(&collector.len.to_le_bytes());
    state[33..293].copy_from_slice(&collector.bytes);
    state[293] = u8::from(awaited.differed);
}
