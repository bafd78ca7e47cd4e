// The calls for C and Rust, as include/door.h declares them. Each is the call of that name of one of the door crates, with its clauses; that crate says what it does.
// A crate is a library or a static library and not both, so the exports stand here, alone.
#![tactic(auto)]

ghost use Rattle.std.specs.Prelude.{◌≡◌};
ghost use Rattle.chip.specs.declared.Event.TheVariants.{Byte, Gap, PowerOn};
ghost use Rattle.chip_core.specs.Effect.{flash, memory};
ghost use Rattle.chip_door.specs.Calls.{fed_through, fresh_through, made, step_told, stepped_through, summed_through, sums_told};
ghost use Rattle.conversion_door.specs.Calls.{convert_told, converted_through};
ghost use Rattle.dock_door.specs.Calls.{ask_through, ask_told, hear_through, hear_told, start_through, start_told, wants_through};
ghost use Rattle.dock_flow.specs.Flow.{answered, silence};
ghost use Rattle.dock_layout.specs.Job.{job_in};
ghost use Rattle.engine_door.specs.Calls.{engine_through, engine_told};
ghost use Rattle.part_layout.specs.Layout.{part_in};
ghost use Rattle.replay_capture.specs.declared.Form.TheVariants.{New, Old};
ghost use Rattle.replay_door.specs.Calls.{replay_told, replayed_through};

#[unsafe(no_mangle)]
pub extern "C" fn zc_fresh(part: &[u8; 19], state: &mut [u8; chip_layout::STATE_SIZE]) -> u32
    ensures { made result state.new ≡ fresh_through (part_in part.now) state.old }
{
    chip_door::zc_fresh(part, state)
}

#[unsafe(no_mangle)]
pub extern "C" fn zc_sums(part: &[u8; 19], code: &[u8], data: &[u8], sums: &mut [u16; 72]) -> u32
    ensures { sums_told result sums.new
        ≡ summed_through (part_in part.now) (flash code.now «data».now) sums.old }
{
    chip_door::zc_sums(part, code, data, sums)
}

#[unsafe(no_mangle)]
pub extern "C" fn zc_byte(
    part: &[u8; 19],
    state: &mut [u8; chip_layout::STATE_SIZE],
    b: u8,
    code: &mut [u8],
    data: &mut [u8],
    sums: &mut [u16; 72],
    room: &mut [u8],
    told: &mut [u64; 4],
) -> u32
    ensures { step_told result told.new state.new (memory code.new «data».new sums.new) room.new
        ≡ stepped_through (part_in part.now) (Byte b) told.old state.old
        (memory code.old «data».old sums.old) room.old }
{
    chip_door::zc_byte(part, state, b, code, data, sums, room, told)
}

#[unsafe(no_mangle)]
pub extern "C" fn zc_gap(
    part: &[u8; 19],
    state: &mut [u8; chip_layout::STATE_SIZE],
    code: &mut [u8],
    data: &mut [u8],
    sums: &mut [u16; 72],
    room: &mut [u8],
    told: &mut [u64; 4],
) -> u32
    ensures { step_told result told.new state.new (memory code.new «data».new sums.new) room.new
        ≡ stepped_through (part_in part.now) Gap told.old state.old
        (memory code.old «data».old sums.old) room.old }
{
    chip_door::zc_gap(part, state, code, data, sums, room, told)
}

#[unsafe(no_mangle)]
pub extern "C" fn zc_power_on(
    part: &[u8; 19],
    state: &mut [u8; chip_layout::STATE_SIZE],
    code: &mut [u8],
    data: &mut [u8],
    sums: &mut [u16; 72],
    room: &mut [u8],
    told: &mut [u64; 4],
) -> u32
    ensures { step_told result told.new state.new (memory code.new «data».new sums.new) room.new
        ≡ stepped_through (part_in part.now) PowerOn told.old state.old
        (memory code.old «data».old sums.old) room.old }
{
    chip_door::zc_power_on(part, state, code, data, sums, room, told)
}

#[unsafe(no_mangle)]
pub extern "C" fn zc_feed(
    part: &[u8; 19],
    state: &mut [u8; chip_layout::STATE_SIZE],
    fed: &[u8],
    code: &mut [u8],
    data: &mut [u8],
    sums: &mut [u16; 72],
    room: &mut [u8],
    told: &mut [u64; 5],
) -> u32
    ensures { step_told result told.new state.new (memory code.new «data».new sums.new) room.new
        ≡ fed_through (part_in part.now) fed.now told.old state.old
        (memory code.old «data».old sums.old) room.old }
{
    chip_door::zc_feed(part, state, fed, code, data, sums, room, told)
}

#[unsafe(no_mangle)]
pub extern "C" fn zc_engine(
    part: &[u8; 19],
    state: &mut [u8; chip_layout::STATE_SIZE],
    fed: &[u8],
    code: &mut [u8],
    data: &mut [u8],
    sums: &mut [u16; 72],
    room: &mut [u8],
    told: &mut [u64; 5],
) -> u32
    ensures { engine_told result told.new state.new (memory code.new «data».new sums.new) room.new
        ≡ engine_through (part_in part.now) fed.now told.old state.old
        (memory code.old «data».old sums.old) room.old }
{
    engine_door::zc_engine(part, state, fed, code, data, sums, room, told)
}

#[unsafe(no_mangle)]
pub extern "C" fn zc_replay(
    part: &[u8; 19],
    state: &mut [u8; chip_layout::STATE_SIZE],
    capture: &[u8],
    code: &mut [u8],
    data: &mut [u8],
    sums: &mut [u16; 72],
    room: &mut [u8],
    output: &mut [u8],
    told: &mut [u64; 3],
) -> u32
    ensures { replay_told result told.new state.new
        (memory code.new «data».new sums.new) room.new output.new
        ≡ replayed_through Old (part_in part.now) capture.now told.old state.old
        (memory code.old «data».old sums.old) room.old output.old }
{
    replay_door::zc_replay(part, state, capture, code, data, sums, room, output, told)
}

#[unsafe(no_mangle)]
pub extern "C" fn zc_replay_new(
    part: &[u8; 19],
    state: &mut [u8; chip_layout::STATE_SIZE],
    capture: &[u8],
    code: &mut [u8],
    data: &mut [u8],
    sums: &mut [u16; 72],
    room: &mut [u8],
    output: &mut [u8],
    told: &mut [u64; 3],
) -> u32
    ensures { replay_told result told.new state.new
        (memory code.new «data».new sums.new) room.new output.new
        ≡ replayed_through New (part_in part.now) capture.now told.old state.old
        (memory code.old «data».old sums.old) room.old output.old }
{
    replay_door::zc_replay_new(part, state, capture, code, data, sums, room, output, told)
}

#[unsafe(no_mangle)]
pub extern "C" fn zc_start(
    part: &[u8; 19],
    job: &[u8; 11],
    image: &[u8],
    state: &mut [u8; 26],
) -> u32
    ensures { start_told result state.new
        ≡ start_through (job_in part.now job.now) image.now state.old }
{
    dock_door::zc_start(part, job, image, state)
}

#[unsafe(no_mangle)]
pub extern "C" fn zc_ask(
    part: &[u8; 19],
    job: &[u8; 11],
    image: &[u8],
    state: &mut [u8; 26],
    room: &mut [u8],
    told: &mut [u64; 1],
) -> u32
    ensures { ask_told result told.new state.new room.new
        ≡ ask_through (job_in part.now job.now) image.now told.old state.old room.old }
{
    dock_door::zc_ask(part, job, image, state, room, told)
}

#[unsafe(no_mangle)]
pub extern "C" fn zc_answer(
    part: &[u8; 19],
    job: &[u8; 11],
    image: &[u8],
    state: &mut [u8; 26],
    answer: &[u8],
    told: &mut [u64; 3],
) -> u32
    ensures { hear_told result told.new state.new
        ≡ hear_through (job_in part.now job.now) image.now told.old state.old (answered answer.now) }
{
    dock_door::zc_answer(part, job, image, state, answer, told)
}

#[unsafe(no_mangle)]
pub extern "C" fn zc_timeout(
    part: &[u8; 19],
    job: &[u8; 11],
    image: &[u8],
    state: &mut [u8; 26],
    told: &mut [u64; 3],
) -> u32
    ensures { hear_told result told.new state.new
        ≡ hear_through (job_in part.now job.now) image.now told.old state.old silence }
{
    dock_door::zc_timeout(part, job, image, state, told)
}

#[unsafe(no_mangle)]
pub extern "C" fn zc_wants(
    part: &[u8; 19],
    job: &[u8; 11],
    image: &[u8],
    state: &[u8; 26],
    answer: &[u8],
) -> usize
    ensures { result ≡ wants_through (job_in part.now job.now) image.now state.now answer.now }
{
    dock_door::zc_wants(part, job, image, state, answer)
}

#[unsafe(no_mangle)]
pub extern "C" fn zc_to_new(capture: &[u8], output: &mut [u8], told: &mut [u64; 2]) -> u32
    ensures { convert_told result told.new output.new ≡ converted_through Old capture.now output.old }
{
    conversion_door::zc_to_new(capture, output, told)
}

#[unsafe(no_mangle)]
pub extern "C" fn zc_to_old(capture: &[u8], output: &mut [u8], told: &mut [u64; 2]) -> u32
    ensures { convert_told result told.new output.new ≡ converted_through New capture.now output.old }
{
    conversion_door::zc_to_old(capture, output, told)
}
