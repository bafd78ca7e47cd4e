// How a part crosses the door as bytes: one layout, read here alone. Document 01, "The part".
#![tactic(auto)]

ghost use Rattle.std.specs.Prelude.{◌≡◌};
ghost use Rattle.part.specs.Part.{bare};
ghost use Rattle.part_layout.specs.Layout.{part_in};

use part::Part;

pub fn part_in(bytes: &[u8; 19]) -> Part
    ensures { result ≡ part_in bytes.now }
{
    Part {
        code_blocks: u32::from(bytes[0]),
        data_blocks: u32::from(bytes[1]),
        clock: u32::from(bytes[2]),
        device: numbers::bytes_at(bytes, 3),
        name: numbers::bytes_at(bytes, 6),
        version: numbers::bytes_at(bytes, 16),
    }
}

// The part without its names, where its numbers alone are asked for: no name is copied.
pub fn bare_in(bytes: &[u8; 19]) -> Part
    ensures { result ≡ bare (part_in bytes.now) }
{
    Part {
        code_blocks: u32::from(bytes[0]),
        data_blocks: u32::from(bytes[1]),
        clock: u32::from(bytes[2]),
        device: [0u8; 3],
        name: [0u8; 10],
        version: [0u8; 3],
    }
}
