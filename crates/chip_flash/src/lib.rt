// Work on lent flash bytes: are they blank, set some to FFh, program some, their 16-bit sum. Each is total, and every byte outside the
// named stretch stays. What the bytes mean stands in the chip.
#![tactic(auto)]

ghost use Rattle.std.specs.Prelude.{◌≡◌};
ghost use Rattle.lent.specs.Lent.{left};
ghost use Rattle.chip_flash.specs.Flash.{blank, erase_of, lands, programmed, program_of, sum_of_bytes};

use lent::Short;

#[tactic(auto, unfolding(crate::specs::Flash::blank))]
pub fn is_blank(bytes: &[u8]) -> bool
    ensures { result ≡ blank bytes.now }
{
    lent::are_all(bytes, 0xFF)
}

#[tactic(auto, using(crate::proofs::Laws::erasing))]
pub fn erase(flash: &mut [u8], at: usize, n: usize) -> Result<(), Short>
    ensures { left result flash.new ≡ erase_of flash.old at n }
{
    if flash.len() < n || flash.len() - n < at {
        return Err(Short);
    }
    flash[at..at + n].fill(0xFF);
    Ok(())
}

// Whether programming these bytes over those leaves what was sent. The test carries its answer and never returns early: it takes many bytes at once.
pub fn lands(old: &[u8], new: &[u8]) -> bool
    ensures { result ≡ lands old.now new.now }
{
    old.len() == new.len()
        && old
            .iter()
            .zip(new)
            .fold(true, |ok, (&o, &n)| ok & (o & n == n))
}

fn clear(part: &mut [u8], new: &[u8])
    ensures { part.new ≡ programmed part.old new.now }
{
    let end = new.len().min(part.len());
    for i in 0..end {
        part[i] &= new[i];
    }
}

#[tactic(auto, using(crate::proofs::Laws::programming))]
pub fn program(flash: &mut [u8], at: usize, n: usize, new: &[u8])
    ensures { flash.new ≡ program_of flash.old at n new.now }
{
    if at < flash.len() {
        let end = at + n.min(flash.len() - at);
        clear(&mut flash[at..end], new);
    }
}

#[tactic(auto, unfolding(crate::specs::Flash::sum_of_bytes))]
pub fn sum(bytes: &[u8]) -> u16
    ensures { result ≡ sum_of_bytes bytes.now }
{
    frame::sum::sum16(0x0000, bytes)
}
