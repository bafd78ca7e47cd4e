// The chip's step alone, exported for `trials/run speed`: the call of that name of `chip_pace`, with its clauses. A crate is a library or a static library and not both.
#![tactic(auto)]

ghost use Rattle.std.specs.Prelude.{◌≡◌};
ghost use Rattle.chip_core.specs.Effect.{memory};
ghost use Rattle.chip_pace.specs.Pace.{paced, paced_of};
ghost use Rattle.part_layout.specs.Layout.{part_in};

#[unsafe(no_mangle)]
pub extern "C" fn zp_steps(
    part: &[u8; 19],
    bytes: &[u8],
    code: &mut [u8],
    data: &mut [u8],
    sums: &mut [u16; 72],
    room: &mut [u8],
) -> usize
    ensures { paced result (memory code.new «data».new sums.new) room.new
        ≡ paced_of (part_in part.now) bytes.now (memory code.old «data».old sums.old)
        room.old }
{
    chip_pace::zp_steps(part, bytes, code, data, sums, room)
}
