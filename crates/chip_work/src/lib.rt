// The work of each command of document 01, "Commands", on the chip's record, the two areas of flash and the kept sums: parameters before protection, then the work.
// Decisions on numbers come first, flash is lent late.
#![tactic(auto)]

ghost use Rattle.std.specs.Prelude.{◌≡◌, ◌≤◌, ◌+◌, eqb};
ghost use Rattle.part.specs.Part.{range_of, place_of, blocks};
ghost use Rattle.words.specs.Words.{◌and◌, ◌or◌};
ghost use Rattle.chip_flash.specs.Flash.{blank};
ghost use Rattle.chip_options.specs.Options.{boot_allowed, erase_allowed};
ghost use Rattle.chip_core.specs.Effect.{awaiting, effect, flash, memory, says};
ghost use Rattle.chip_sums.specs.Sums.{range_bytes};
ghost use Rattle.chip_work.specs.Work.{rate_set, is_boot, forbidden, erased_in, block_erase, blank_check, programming, verify, checksum, security_release};

use chip_core::{Core, Done, Phase, awaiting, says};
use chip_reply::Reply;
use part::{Area, Part};

pub fn rate_set(part: Part, core: Core, rate: u8, supply: u8) -> Done
    ensures { result ≡ rate_set part core rate supply }
{
    if !part::rate::accepts(part, rate as u32, supply as u32) {
        return says(core, 0x05);
    }
    Done {
        reply: Reply::Rate(part::rate::mode(part, supply as u32)),
        core: Core {
            rate,
            phase: Phase::Ready,
            ..core
        },
    }
}

fn is_boot(area: Area, block: usize) -> bool
    ensures { result ≡ is_boot area block }
{
    match area {
        Area::CodeFlash => block < 4,
        Area::DataFlash => false,
    }
}

fn is_forbidden(allowed: bool, boot: bool, boot_flag: bool) -> bool
    ensures { result ≡ forbidden allowed boot boot_flag }
{
    !allowed || boot && !boot_flag
}

fn erase_in(area: Area, offset: usize, size: usize, code: &mut [u8], data: &mut [u8])
    ensures { flash code.new «data».new ≡ erased_in area offset size (flash code.old «data».old) }
{
    match area {
        Area::CodeFlash => {
            let _ = chip_flash::erase(code, offset, size);
        }
        Area::DataFlash => {
            let _ = chip_flash::erase(data, offset, size);
        }
    }
}

pub fn block_erase(
    part: Part,
    core: Core,
    start: usize,
    code: &mut [u8],
    data: &mut [u8],
    sums: &mut [u16; 72],
) -> Done
    ensures { effect result (memory code.new «data».new sums.new)
        ≡ block_erase part core (place_of part start) (memory code.old «data».old sums.old) }
{
    let place = part.place(start);
    let Some(at) = place else {
        return says(core, 0x05);
    };
    let size = part.block_size(at.area);
    if at.offset % size != 0 {
        return says(core, 0x05);
    }
    let flags = core.options.flags;
    if is_forbidden(
        chip_options::erase_allowed(part, flags),
        is_boot(at.area, at.block),
        chip_options::boot_allowed(part, flags),
    ) {
        return says(core, 0x10);
    }
    erase_in(at.area, at.offset, size, code, data);
    chip_sums::resum(part, place, code, data, sums);
    says(core, 0x06)
}

// The bytes of a good range.
fn range_bytes<'a>(
    part: Part,
    area: Area,
    block: usize,
    count: usize,
    code: &'a [u8],
    data: &'a [u8],
) -> &'a [u8]
    requires { block + count ≤ blocks part area }
    ensures { result.now ≡ range_bytes part area block count (flash code.now «data».now) }
{
    let size = part.block_size(area);
    let bytes = chip_core::area_bytes(area, code, data);
    lent::span(bytes, block * size, count * size)
}

// 32h knows two values of D01.
fn is_known(d01: u8) -> bool
    ensures { result ≡ (eqb d01 0x00 or eqb d01 0x01) }
{
    matches!(d01, 0x00 | 0x01)
}

pub fn blank_check<'a>(
    part: Part,
    core: Core,
    start: usize,
    end: usize,
    d01: u8,
    code: &'a [u8],
    data: &'a [u8],
) -> Done
    ensures { result ≡ blank_check part core (range_of part start end) d01 (flash code.now «data».now) }
{
    let Some(range) = part.range(start, end) else {
        return says(core, 0x05);
    };
    if !is_known(d01) {
        return says(core, 0x05);
    }
    let bytes = range_bytes(part, range.area, range.block, range.count, code, data);
    if !chip_flash::is_blank(bytes) {
        return says(core, 0x1B);
    }
    if d01 == 0x01 && !core.options.is_fresh(part) {
        return says(core, 0x1B);
    }
    says(core, 0x06)
}

pub fn programming(part: Part, core: Core, start: usize, end: usize) -> Done
    ensures { result ≡ programming part core (range_of part start end) start end }
{
    let Some(range) = part.range(start, end) else {
        return says(core, 0x05);
    };
    let flags = core.options.flags;
    if is_forbidden(
        chip_options::write_allowed(part, flags),
        is_boot(range.area, range.block),
        chip_options::boot_allowed(part, flags),
    ) {
        return says(core, 0x10);
    }
    says(awaiting(core, 0x40, start, end), 0x06)
}

pub fn verify(part: Part, core: Core, start: usize, end: usize) -> Done
    ensures { result ≡ verify core (range_of part start end) start end }
{
    if part.range(start, end).is_none() {
        return says(core, 0x05);
    }
    says(awaiting(core, 0x13, start, end), 0x06)
}

pub fn checksum<'a>(
    part: Part,
    core: Core,
    start: usize,
    end: usize,
    code: &'a [u8],
    data: &'a [u8],
    sums: &[u16; 72],
) -> Done
    ensures { result ≡ checksum part core (range_of part start end) (memory code.now «data».now sums.now) }
{
    let Some(range) = part.range(start, end) else {
        return says(core, 0x05);
    };
    let sum = if range.count == 1 {
        chip_sums::kept(sums, range.area, range.block)
    } else {
        chip_flash::sum(range_bytes(part, range.area, range.block, range.count, code, data))
    };
    Done {
        reply: Reply::Sum(sum),
        core,
    }
}

fn is_all_blank(code: &[u8], data: &[u8]) -> bool
    ensures { result ≡ (blank code.now and blank «data».now) }
{
    chip_flash::is_blank(code) && chip_flash::is_blank(data)
}

fn is_releasable(part: Part, flags: u8) -> bool
    ensures { result ≡ (boot_allowed part flags and erase_allowed part flags) }
{
    chip_options::boot_allowed(part, flags) && chip_options::erase_allowed(part, flags)
}

pub fn release(part: Part, core: Core, code: &[u8], data: &[u8]) -> Done
    ensures { result ≡ security_release part core (flash code.now «data».now) }
{
    if !is_releasable(part, core.options.flags) {
        return says(core, 0x10);
    }
    if !is_all_blank(code, data) {
        return says(core, 0x1B);
    }
    let fresh = Core {
        options: core.options.released(part),
        ..core
    };
    says(fresh, 0x06)
}
