// The lasting options: flags, last boot block and window, what they allow, and which are good. Document 01, "The part" and "Commands".
#![tactic(auto)]

ghost use Rattle.std.specs.Prelude.{◌≡◌};
ghost use Rattle.chip_options.specs.Options.{boot_allowed, erase_allowed, write_allowed, fixed_bits, last_block, fresh_options, good_options};
ghost use Rattle.chip_options.specs.Options.{is_fresh, rises, raises, released, options_in, security};

use part::{Area, Part};

// The window's start and end are block numbers.
#[derive(Clone, Copy)]
pub struct Options {
    pub flags: u8,
    pub boot: u8,
    pub start: u32,
    pub end: u32,
}

pub fn boot_allowed(part: Part, flags: u8) -> bool
    ensures { result ≡ boot_allowed part flags }
{
    flags / 2 % 2 == 1
}

pub fn erase_allowed(part: Part, flags: u8) -> bool
    ensures { result ≡ erase_allowed part flags }
{
    flags / 4 % 2 == 1
}

pub fn write_allowed(part: Part, flags: u8) -> bool
    ensures { result ≡ write_allowed part flags }
{
    flags / 16 % 2 == 1
}

fn fixed_bits(part: Part, flags: u8) -> bool
    ensures { result ≡ fixed_bits part flags }
{
    flags % 2 == 1
        && flags / 8 % 2 == 1
        && flags / 32 % 2 == 1
        && flags / 64 % 2 == 1
        && flags / 128 % 2 == 1
}

#[tactic(auto, unfolding(crate::specs::Options::last_block))]
fn last_block(part: Part) -> u32
    ensures { result ≡ last_block part }
{
    part.code_blocks.saturating_sub(1)
}

fn rises(old: bool, new: bool) -> bool
    ensures { result ≡ rises old new }
{
    !old && new
}

// Whether a 0 flag of the old flags would become 1.
pub fn raises(part: Part, old: u8, new: u8) -> bool
    ensures { result ≡ raises part old new }
{
    rises(boot_allowed(part, old), boot_allowed(part, new))
        || rises(erase_allowed(part, old), erase_allowed(part, new))
        || rises(write_allowed(part, old), write_allowed(part, new))
}

impl Options {
    #[tactic(auto, unfolding(crate::specs::Options::fresh_options))]
    pub fn fresh(part: Part) -> Options
        ensures { result ≡ fresh_options part }
    {
        Options {
            flags: 0xFF,
            boot: 0x03,
            start: 0,
            end: last_block(part),
        }
    }

    pub fn is_good(self, part: Part) -> bool
        ensures { result ≡ good_options part self }
    {
        fixed_bits(part, self.flags)
            && self.boot == 0x03
            && self.start <= self.end
            && (self.end as usize) < part.blocks(Area::CodeFlash)
    }

    pub fn is_fresh(self, part: Part) -> bool
        ensures { result ≡ is_fresh part self }
    {
        self.flags == 0xFF && self.start == 0 && self.end == last_block(part)
    }

    #[tactic(auto, unfolding(crate::specs::Options::released))]
    pub fn released(self, part: Part) -> Options
        ensures { result ≡ released part self }
    {
        Options {
            flags: 0xFF,
            start: 0,
            end: last_block(part),
            ..self
        }
    }

    // The options that bytes hold; those that are not there count as 0.
    pub fn read(bytes: &[u8]) -> Options
        ensures { result ≡ options_in bytes.now }
    {
        let start = u32::from(u16::from_le_bytes(numbers::bytes_at(bytes, 2)));
        let end = u32::from(u16::from_le_bytes(numbers::bytes_at(bytes, 4)));
        Options {
            flags: lent::byte_at(bytes, 0),
            boot: lent::byte_at(bytes, 1),
            start,
            end,
        }
    }

    pub fn security(self) -> [u8; 8]
        ensures { result ≡ security self }
    {
        let [start_low, start_high, ..] = self.start.to_le_bytes();
        let [end_low, end_high, ..] = self.end.to_le_bytes();
        [
            self.flags, self.boot, start_low, start_high, end_low, end_high, 0xFF, 0xFF,
        ]
    }
}
