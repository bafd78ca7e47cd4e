// The data frames of phase 4: pages of 40h and 13h, and the data of A0h. Document 01, "Commands".
#![tactic(auto)]

ghost use Rattle.std.specs.Prelude.{◌≡◌, get_or, eqb};
ghost use Rattle.words.specs.Words.{◌and◌};
ghost use Rattle.chip_options.specs.Options.{good_options};
ghost use Rattle.part.specs.Part.{place_of};
ghost use Rattle.chip_core.specs.Effect.{effect, flash, memory};
ghost use Rattle.chip_pages.specs.Pages.{is_last_page, footer_of, length_of, page_in, next_page, page_status, told_written, page_programmed, program_page};
ghost use Rattle.chip_pages.specs.Pages.{compared, verify_status, verify_page};
ghost use Rattle.chip_pages.specs.Pages.{security_data, bad_data, good_data, data_does};

use chip_core::{Awaited, Core, Done, Phase};
use chip_options::Options;
use chip_reply::Reply;
use frame::judgement::Judgement;
use frame::{Footer, judgement};
use part::{Area, Part, Place};

fn is_last_page(w: Awaited) -> bool
    ensures { result ≡ is_last_page w }
{
    w.last <= w.next || w.last - w.next < part::page_size()
}

fn footer_of(w: Awaited) -> Footer
    ensures { result ≡ footer_of w }
{
    if w.command == 0xA0 || is_last_page(w) {
        return Footer::Last;
    }
    Footer::More
}

fn length_of(w: Awaited) -> usize
    ensures { result ≡ length_of w }
{
    if w.command == 0xA0 {
        return 8;
    }
    part::page_size()
}

fn next_page(w: Awaited, core: Core) -> Core
    ensures { result ≡ next_page w core }
{
    if is_last_page(w) {
        return core.entered(Phase::Ready);
    }
    core.entered(Phase::Awaiting(Awaited {
        next: w.next + part::page_size(),
        ..w
    }))
}

#[tactic(auto, unfolding(crate::specs::Pages::page_in))]
fn page_bytes<'a>(place: Option<Place>, code: &'a [u8], data: &'a [u8]) -> &'a [u8]
    ensures { result.now ≡ page_in place (flash code.now «data».now) }
{
    let Some(place) = place else {
        return &code[0..0];
    };
    let bytes = chip_core::area_bytes(place.area, code, data);
    lent::span(bytes, place.offset, part::page_size())
}

fn page_status(old: &[u8], new: &[u8]) -> u8
    ensures { result ≡ page_status old.now new.now }
{
    if chip_flash::lands(old, new) {
        return 0x06;
    }
    0x1C
}

fn write_page(place: Option<Place>, bytes: &[u8], code: &mut [u8], data: &mut [u8])
    ensures { flash code.new «data».new
        ≡ page_programmed place bytes.now (flash code.old «data».old) }
{
    let Some(place) = place else {
        return;
    };
    match place.area {
        Area::CodeFlash => chip_flash::program(code, place.offset, part::page_size(), bytes),
        Area::DataFlash => chip_flash::program(data, place.offset, part::page_size(), bytes),
    }
}

fn told_written(status: u8, w: Awaited, core: Core) -> Done
    ensures { result ≡ told_written status w core }
{
    if status != 0x06 {
        let ended = core.entered(Phase::Ready);
        return Done {
            reply: Reply::Pair(0x06, status),
            core: ended,
        };
    }
    let reply = if is_last_page(w) {
        Reply::LastStored
    } else {
        Reply::Pair(0x06, 0x06)
    };
    Done {
        reply,
        core: next_page(w, core),
    }
}

fn program_page(
    part: Part,
    core: Core,
    w: Awaited,
    bytes: &[u8],
    code: &mut [u8],
    data: &mut [u8],
    sums: &mut [u16; 72],
) -> Done
    ensures { effect result (memory code.new «data».new sums.new)
        ≡ program_page part core w (place_of part w.next) bytes.now (memory code.old «data».old sums.old) }
{
    let place = part.place(w.next);
    let status = page_status(page_bytes(place, code, data), bytes);
    write_page(place, bytes, code, data);
    chip_sums::resum(part, place, code, data, sums);
    told_written(status, w, core)
}

// The record after a page of 13h was compared.
fn compared(w: Awaited, equal: bool) -> Awaited
    ensures { result ≡ compared w equal }
{
    Awaited {
        differed: !equal || w.differed,
        ..w
    }
}

fn verify_status(w: Awaited) -> u8
    ensures { result ≡ verify_status w }
{
    if is_last_page(w) && w.differed {
        return 0x0F;
    }
    0x06
}

fn verify_page<'a>(
    part: Part,
    core: Core,
    w: Awaited,
    bytes: &[u8],
    code: &'a [u8],
    data: &'a [u8],
) -> Done
    ensures { result ≡ verify_page core w (place_of part w.next) bytes.now (flash code.now «data».now) }
{
    let page = page_bytes(part.place(w.next), code, data);
    let after = compared(w, lent::is_same(page, bytes));
    Done {
        reply: Reply::Pair(0x06, verify_status(after)),
        core: next_page(after, core),
    }
}

// Whether A0h's data passes its 05h rule.
fn is_good_data(part: Part, options: Options, bytes: &[u8]) -> bool
    ensures { result ≡ (good_options part options and eqb (get_or bytes.now 6 0) 0xFF and eqb (get_or bytes.now 7 0) 0xFF) }
{
    options.is_good(part) && lent::byte_at(bytes, 6) == 0xFF && lent::byte_at(bytes, 7) == 0xFF
}

fn security_data(part: Part, core: Core, bytes: &[u8]) -> Done
    ensures { result ≡ security_data part core bytes.now }
{
    let asked = Options::read(bytes);
    let after = core.entered(Phase::Ready);
    if !is_good_data(part, asked, bytes) {
        return chip_core::says(after, 0x05);
    }
    if chip_options::raises(part, core.options.flags, asked.flags) {
        return chip_core::says(after, 0x10);
    }
    let stored = Core {
        options: asked,
        ..after
    };
    chip_core::says(stored, 0x06)
}

fn bad_data(core: Core, w: Awaited, j: Judgement) -> Done
    ensures { result ≡ bad_data w j core }
{
    let reply = if w.command == 0xA0 {
        Reply::BadFrame(j)
    } else {
        Reply::BadPage(j)
    };
    Done {
        reply,
        core: core.entered(Phase::Ready),
    }
}

fn good_data(
    part: Part,
    core: Core,
    w: Awaited,
    bytes: &[u8],
    code: &mut [u8],
    data: &mut [u8],
    sums: &mut [u16; 72],
) -> Done
    ensures { effect result (memory code.new «data».new sums.new)
        ≡ good_data part core w bytes.now (memory code.old «data».old sums.old) }
{
    if w.command == 0xA0 {
        return security_data(part, core, bytes);
    }
    if w.command == 0x40 {
        return program_page(part, core, w, bytes, code, data, sums);
    }
    verify_page(part, core, w, bytes, code, data)
}

// What a complete data frame does.
pub fn page(
    part: Part,
    core: Core,
    w: Awaited,
    bytes: &[u8],
    code: &mut [u8],
    data: &mut [u8],
    sums: &mut [u16; 72],
) -> Done
    ensures { effect result (memory code.new «data».new sums.new)
        ≡ data_does part core w bytes.now (memory code.old «data».old sums.old) }
{
    let j = judgement::judge_fit(footer_of(w), length_of(w), bytes);
    if !j.is_good() {
        return bad_data(core, w, j);
    }
    good_data(part, core, w, frame::payload(bytes), code, data, sums)
}
