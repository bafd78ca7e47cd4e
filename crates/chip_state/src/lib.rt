// The chip's state, and which calls are refused: document 01, "Refusal numbers" (chip).
#![tactic(auto)]

ghost use Rattle.std.specs.Prelude.{◌≡◌, ◌<◌, ◌+◌, ◌%◌, eqb};
ghost use Rattle.words.specs.Words.{◌or◌};
ghost use Rattle.chip_state.specs.Refusals.{same_area, good_places, good_awaited, good_phase, good_begun, good_collected, good_core, good_state, verdict_of};

use chip_core::{Awaited, Core, Hearing, Phase};
use frame::Header;
use frame::collector::Collector;
use part::refusal::Refusal;
use part::{Area, Part, Place};

#[derive(Clone, Copy)]
pub struct Chip {
    pub core: Core,
    pub collector: Collector,
}

// What a call hands in, as numbers: the count, the first byte and the LEN byte of what is collected, and the lengths of what is lent.
#[derive(Clone, Copy)]
pub struct Handed {
    pub count: usize,
    pub head: u8,
    pub len: u8,
    pub code: usize,
    pub data: usize,
    pub room: usize,
}

fn same_area(a: Area, b: Area) -> bool
    ensures { result ≡ same_area a b }
{
    a == b
}

fn is_block_end(offset: usize, size: usize) -> bool
    requires { 0 < size }
    ensures { result ≡ eqb ((offset + 1) % size) 0 }
{
    offset % size == size - 1
}

fn has_pages(command: u8) -> bool
    ensures { result ≡ (eqb command 0x40 or eqb command 0x13) }
{
    command == 0x40 || command == 0x13
}

// The places of the next and the last address of phase 4.
#[tactic(auto, unfolding(crate::specs::Refusals::good_places))]
fn are_good_places(part: Part, next: Option<Place>, last: Option<Place>) -> bool
    ensures { result ≡ good_places part next last }
{
    let (Some(next), Some(last)) = (next, last) else {
        return false;
    };
    same_area(next.area, last.area)
        && next.offset % part::page_size() == 0
        && is_block_end(last.offset, part.block_size(last.area))
}

fn is_good_awaited(part: Part, w: Awaited) -> bool
    ensures { result ≡ good_awaited part w }
{
    w.command == 0xA0
        || has_pages(w.command)
            && w.next <= w.last
            && are_good_places(part, part.place(w.next), part.place(w.last))
}

#[tactic(auto, unfolding(crate::specs::Refusals::good_phase))]
fn is_good_phase(part: Part, phase: Phase) -> bool
    ensures { result ≡ good_phase part phase }
{
    match phase {
        Phase::ModeByte | Phase::Setup | Phase::Ready => true,
        Phase::Awaiting(w) => is_good_awaited(part, w),
    }
}

// What is collected, by its count, its first byte and its LEN byte.
fn is_good_begun(header: Header, count: usize, head: u8, len: u8) -> bool
    ensures { result ≡ good_begun header count head len }
{
    count == 0 || count < frame::LONGEST && head == header.byte() && !frame::is_full(count, len)
}

// What is collected, by what the phase hears.
#[tactic(auto, unfolding(crate::specs::Refusals::good_collected))]
pub fn is_good_collected(hears: Hearing, count: usize, head: u8, len: u8) -> bool
    ensures { result ≡ good_collected hears count head len }
{
    match hears {
        Hearing::HearsNothing => count == 0,
        Hearing::HearsCommands => is_good_begun(Header::Command, count, head, len),
        Hearing::HearsData(_) => is_good_begun(Header::Data, count, head, len),
    }
}

fn is_good_core(part: Part, core: Core) -> bool
    ensures { result ≡ good_core part core }
{
    core.rate <= 0x03 && core.options.is_good(part) && is_good_phase(part, core.phase)
}

// Whether a state is one that the chip accepts: what is collected, then the record.
pub fn is_good_state(part: Part, core: Core, count: usize, head: u8, len: u8) -> bool
    ensures { result ≡ good_state part core count head len }
{
    is_good_collected(core.phase.hearing(), count, head, len) && is_good_core(part, core)
}

// The verdict on a chip, by its record and what the call hands in.
pub fn verdict(part: Part, core: Core, handed: Handed) -> Result<(), Refusal>
    ensures { result ≡ verdict_of part core handed }
{
    if !part.is_described() {
        return Err(Refusal::BadPart);
    }
    if handed.code != part.size(Area::CodeFlash) {
        return Err(Refusal::CodeLength);
    }
    if handed.data != part.size(Area::DataFlash) {
        return Err(Refusal::DataLength);
    }
    if !is_good_state(part, core, handed.count, handed.head, handed.len) {
        return Err(Refusal::BadState);
    }
    if handed.room < 32 {
        return Err(Refusal::ShortRoom);
    }
    Ok(())
}
