// Records that change what is collected alone, or nothing at all, settled where the collected bytes lie: a gap, bytes after which what is collected is still the
// front of a frame that is awaited, and the other seat's. Nothing answers them, so a run of them is one stretch: no chip is copied for them, and one verdict
// holds for all. Document 01, "Replay" and "Frames" ("Collecting"), and 02, section 5.
#![tactic(auto)]

ghost use Rattle.std.specs.Prelude.{◌≡◌, ◌++◌, ◌≤◌, get_or, length, take};
ghost use Rattle.chip_state.specs.Refusals.{good_heard};
ghost use Rattle.replay_quiet.specs.Quiet.{accepted_in, chip_held, settle_of, settling};

use chip_core::{Core, Phase};
use chip_state::Handed;
use part::Part;
use replay_capture::{Form, Record};

// How much is lent beside the collected bytes.
#[derive(Clone, Copy)]
pub struct Lengths {
    pub code: usize,
    pub data: usize,
    pub room: usize,
    pub output: usize,
}

// The byte at a place of what is collected with more bytes behind it; 0 where there is none.
fn byte_after(held: &[u8], count: usize, more: &[u8], i: usize) -> u8
    requires { count ≤ length held.now }
    ensures { result ≡ get_or (take count held.now ++ more.now) i 0 }
{
    if i < count {
        return held[i];
    }
    lent::byte_at(more, i - count)
}

// Whether what is collected is the front of a frame that is awaited, with more bytes behind it.
fn is_front(phase: Phase, held: &[u8], count: usize, more: &[u8]) -> bool
    requires { (length held.now ≡ 260) × (length more.now ≤ 8) }
    ensures { result ≡ good_heard phase (take count held.now ++ more.now) }
{
    if frame::LONGEST <= count {
        return false;
    }
    let n = count + more.len();
    let head = byte_after(held, count, more, 0);
    let len = byte_after(held, count, more, 1);
    chip_state::is_good_collected(phase.hearing(), n, head, len)
}

// Whether the chip accepts the call. A caller who knows it, since only quiet records came after the last verdict, says so, and none is taken.
fn is_accepted(
    known: bool,
    part: Part,
    core: Core,
    held: &[u8],
    count: usize,
    lengths: Lengths,
) -> bool
    requires { length held.now ≡ 260 }
    ensures { result ≡ accepted_in known part (chip_held core held.now count) lengths }
{
    if known {
        return true;
    }
    let handed = Handed {
        count,
        head: held[0],
        len: held[1],
        code: lengths.code,
        data: lengths.data,
        room: lengths.room,
    };
    chip_state::verdict(part, core, handed).is_ok()
}

// One record of a capture, where it is quiet, the chip accepts it and the output has room for a record's replies: the bytes that it carries go behind those
// collected; for a gap, none is collected any more; for the other seat's, all stays. How many are collected then; none where it is not quiet, and nothing was changed.
pub fn settle(
    form: Form,
    known: bool,
    part: Part,
    core: Core,
    held: &mut [u8; frame::LONGEST],
    count: usize,
    bytes: &[u8],
    lengths: Lengths,
) -> Option<usize>
    ensures { settling result held.new ≡ settle_of form known part (chip_held core held.old count) bytes.now lengths }
{
    if lengths.output < replay_play::output_least(form) {
        return None;
    }
    let Ok(record) = replay_capture::read(form, bytes) else {
        return None;
    };
    match record {
        Record::OtherSeat => {
            if is_accepted(known, part, core, held, count, lengths) {
                return Some(count);
            }
            None
        }
        Record::GapRecord => {
            if is_accepted(known, part, core, held, count, lengths) {
                return Some(0);
            }
            None
        }
        Record::BytesRecord(n) => {
            let carried = replay_capture::carried(form, n, bytes);
            let phase = core.phase;
            if !is_front(phase, held, count, carried) {
                return None;
            }
            if !is_accepted(known, part, core, held, count, lengths) {
                return None;
            }
            let _ = lent::put(held, count, carried);
            Some(count + n)
        }
    }
}
