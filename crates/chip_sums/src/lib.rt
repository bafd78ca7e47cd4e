// The blocks' sums, kept beside the chip's lasting record: document 02, §1. Read one, work one out afresh, work all out.
#![tactic(auto)]

ghost use Rattle.std.specs.Prelude.{◌≡◌, ◌<◌, ◌≤◌, ◌+◌, ◌^◌, set};
ghost use Rattle.chip_core.specs.Effect.{flash, memory};
ghost use Rattle.part.specs.Part.{blocks};
ghost use Rattle.chip_sums.specs.Sums.{block_sum, flash_verdict, kept, resummed, slot, summed_to, summing, worked_out};

use part::refusal::Refusal;
use part::{Area, Part, Place};

fn slot(area: Area, block: usize) -> usize
    requires { block < 2 ^ 63 }
    ensures { result ≡ slot area block }
{
    match area {
        Area::CodeFlash => block,
        Area::DataFlash => 64 + block,
    }
}

// The sum that is kept for a block, right or wrong.
pub fn kept(sums: &[u16; 72], area: Area, block: usize) -> u16
    ensures { result ≡ kept sums.now area block }
{
    if block < sums.len() {
        return sums.get(slot(area, block)).copied().unwrap_or(0);
    }
    0
}

fn put(sums: &mut [u16; 72], area: Area, block: usize, sum: u16)
    ensures { sums.new ≡ set sums.old (slot area block) sum }
{
    if block < sums.len() {
        let i = slot(area, block);
        if i < sums.len() {
            sums[i] = sum;
        }
    }
}

#[tactic(auto, unfolding(crate::specs::Sums::block_sum))]
fn block_sum(part: Part, area: Area, block: usize, code: &[u8], data: &[u8]) -> u16
    requires { block < blocks part area }
    ensures { result ≡ block_sum part area block (flash code.now «data».now) }
{
    let size = part.block_size(area);
    let bytes = chip_core::area_bytes(area, code, data);
    chip_flash::sum(lent::span(bytes, block * size, size))
}

// The sum of the block at a place worked out afresh.
pub fn resum(part: Part, place: Option<Place>, code: &[u8], data: &[u8], sums: &mut [u16; 72])
    ensures { sums.new ≡ (resummed part place (memory code.now «data».now sums.old)).sums }
{
    let Some(Place { area, block, .. }) = place else {
        return;
    };
    if block < part.blocks(area) {
        put(sums, area, block, block_sum(part, area, block, code, data));
    }
}

fn sum_area(part: Part, area: Area, code: &[u8], data: &[u8], sums: &mut [u16; 72])
    ensures { sums.new ≡ summed_to (blocks part area) part area (flash code.now «data».now) sums.old }
{
    for block in 0..part.blocks(area) {
        put(sums, area, block, block_sum(part, area, block, code, data));
    }
}

// Whether a part and the lengths of what is lent of its flash bar a call.
pub fn flash_verdict(part: Part, code: usize, data: usize) -> Result<(), Refusal>
    ensures { result ≡ flash_verdict part code «data» }
{
    if !part.is_described() {
        return Err(Refusal::BadPart);
    }
    if code != part.size(Area::CodeFlash) {
        return Err(Refusal::CodeLength);
    }
    if data != part.size(Area::DataFlash) {
        return Err(Refusal::DataLength);
    }
    Ok(())
}

// All sums, when a chip is taken up. Refused, it leaves them as they were.
#[tactic(auto, unfolding(crate::specs::Sums::worked_out, crate::specs::Sums::summed_by, crate::specs::Sums::all_summed))]
pub fn work_out(part: Part, code: &[u8], data: &[u8], sums: &mut [u16; 72]) -> Result<(), Refusal>
    ensures { summing result sums.new ≡ worked_out part (flash code.now «data».now) sums.old }
{
    flash_verdict(part, code.len(), data.len())?;
    sum_area(part, Area::CodeFlash, code, data, sums);
    sum_area(part, Area::DataFlash, code, data, sums);
    Ok(())
}
