// A plain engine: document 02, section 7. A second software chip that takes a whole stretch of bytes, frame by frame where they lie, and collects nothing; only a
// frame that the chip held the begin of is joined first. What a frame does is one definition for both chips.
#![tactic(auto)]

ghost use Rattle.std.specs.Prelude.{◌≡◌, true, ◌++◌, ◌+◌, ◌-◌, ◌*◌, ◌≤◌, ◌<◌, ltb, drop, get_or, length, take, Ok};
ghost use Rattle.chip_core.specs.Effect.{memory};
ghost use Rattle.chip_state.specs.Refusals.{verdict_on};
ghost use Rattle.engine.specs.Engine.{after_frame, begins, engine_left, engine_of, front_for, front_of, leaves, facing, played_out};
ghost use Rattle.engine.specs.Inner.Answering.{Ample, Past, RoomAhead, ended_of, stand_of, whole_of};
ghost use Rattle.frame.specs.Collector.{heard};
ghost use Rattle.frame.specs.Frame.{counted};
ghost use Rattle.frame.specs.Judgement.{is_good};
ghost use Rattle.words.specs.Words.{if◌then◌otherwise◌};
ghost use Rattle.part.specs.Part.{described};

use chip_core::{Core, Hearing};
use chip_reply::Sent;
use chip_state::{Chip, Handed};
use frame::Header;
use frame::collector::Collector;
use frame::judgement::Judgement;
use part::Part;
use part::refusal::Refusal;

// Why the engine refuses: for a chip's reason, or for want of room.
#[derive(Clone, Copy, Debug, PartialEq, Eq)]
pub enum EngineRefusal {
    Refused(Refusal),
    NoRoom,
}

// What a stretch leaves beside what is lent: the answer, how many of its frames were judged bad, the judgement of the first of them, and the chip.
#[derive(Clone, Copy)]
pub struct Played {
    pub answer: Result<Sent, EngineRefusal>,
    pub faults: usize,
    pub first: Judgement,
    pub chip: Chip,
}

// What lies at the front of the bytes ahead: part of a frame or nothing, a byte before a header, a mode byte, or a whole frame of so many bytes.
#[derive(Clone, Copy)]
pub enum Front {
    Held,
    Skipped,
    Mode,
    Whole(usize),
}

// What has been told so far.
#[derive(Clone, Copy)]
struct ToldSoFar {
    bytes: usize,
    frames: usize,
    faults: usize,
    first: Judgement,
}

// What a frame came to: the chip's record after it, and what has been told then.
#[derive(Clone, Copy)]
struct FrameDone {
    core: Core,
    told: ToldSoFar,
}

// The same of all that was taken of the stretch, and how far that is.
#[derive(Clone, Copy)]
struct Reached {
    core: Core,
    told: ToldSoFar,
    at: usize,
}

// How long the frame is that lies whole at the front; 0 where none does. And what any LEN counts at most.
fn whole(bytes: &[u8]) -> usize
    ensures { (result ≡ whole_of bytes.now) × (counted (get_or bytes.now 1 0) ≤ 256) }
{
    let len = lent::byte_at(bytes, 1);
    if frame::is_full(bytes.len(), len) {
        return frame::counted(len) + frame::OVERHEAD;
    }
    0
}

fn front_for(header: Header, bytes: &[u8]) -> Front
    ensures { result ≡ front_for header bytes.now }
{
    if lent::byte_at(bytes, 0) != header.byte() {
        return Front::Skipped;
    }
    let n = whole(bytes);
    if n == 0 {
        return Front::Held;
    }
    Front::Whole(n)
}

fn front_of(hears: Hearing, bytes: &[u8]) -> Front
    ensures { result ≡ front_of hears bytes.now }
{
    if bytes.len() == 0 {
        return Front::Held;
    }
    match hears {
        Hearing::HearsNothing => Front::Mode,
        Hearing::HearsCommands => front_for(Header::Command, bytes),
        Hearing::HearsData(w) => front_for(Header::Data, bytes),
    }
}

// How many frames were judged bad, with one judgement more; and the first of the bad ones.
fn faults_after(faults: usize, judgement: Judgement) -> usize
    requires { faults + 1 < 18446744073709551616 }
    ensures { result ≡ (if is_good judgement then faults otherwise faults + 1) }
{
    if judgement.is_good() {
        return faults;
    }
    faults + 1
}

fn first_of(first: Judgement, judgement: Judgement) -> Judgement
    ensures { result ≡ (if is_good first then judgement otherwise first) }
{
    if first.is_good() {
        return judgement;
    }
    first
}

// A whole frame does its work, and its reply goes into the room behind those before it.
fn answer(
    part: Part,
    core: Core,
    told: ToldSoFar,
    bytes: &[u8],
    code: &mut [u8],
    data: &mut [u8],
    sums: &mut [u16; 72],
    room: &mut [u8],
) -> FrameDone
    requires { (described part ≡ true) × RoomAhead told 1 room.old × (told.faults + 1 < 18446744073709551616) }
    ensures { (stand_of result.core result.told (memory code.new «data».new sums.new) room.new
        ≡ after_frame part bytes.now (stand_of core told (memory code.old «data».old sums.old) room.old))
        × RoomAhead result.told 0 room.new × Past told result.told room.new room.old
        × (result.told.bytes ≤ told.bytes + 31) × (result.told.faults ≤ told.faults + 1) }
{
    let done = chip_frame::frame_does(part, core, bytes, code, data, sums);
    let after = done.core;
    let reply = done.reply;
    let options = after.options;
    let first = told.first;
    let at = told.bytes;
    let sent = chip_reply::send(part, options, reply, &mut room[at..]);
    let judgement = reply.fault();
    FrameDone {
        core: after,
        told: ToldSoFar {
            bytes: at + sent.bytes,
            frames: told.frames + sent.frames,
            faults: faults_after(told.faults, judgement),
            first: first_of(first, judgement),
        },
    }
}

// From a place of the stretch on, turn by turn, up to its end or to what is held.
fn play_from(
    part: Part,
    core: Core,
    told: ToldSoFar,
    bytes: &[u8],
    at: usize,
    code: &mut [u8],
    data: &mut [u8],
    sums: &mut [u16; 72],
    room: &mut [u8],
) -> Reached
    requires { (described part ≡ true) × (at ≤ length bytes.now) × Ample core told (drop at bytes.now) room.old × (told.faults ≤ at) }
    ensures { (facing (drop result.at bytes.now)
        (stand_of result.core result.told (memory code.new «data».new sums.new) room.new)
        ≡ played_out part (facing (drop at bytes.now)
        (stand_of core told (memory code.old «data».old sums.old) room.old)))
        × (result.at ≤ length bytes.now) × (length bytes.now - result.at < 260) × Past told result.told room.new room.old }
{
    let mut core = core;
    let mut told = told;
    let mut i = at;
    while i < bytes.len() {
        let phase = core.phase;
        let ahead = front_of(phase.hearing(), &bytes[i..]);
        match ahead {
            Front::Held => {
                return Reached { core, told, at: i };
            }
            Front::Skipped => {
                i = i + 1;
            }
            Front::Mode => {
                core = chip_frame::mode_byte(core, bytes[i]);
                i = i + 1;
            }
            Front::Whole(n) => {
                let end = i + n;
                let done = answer(part, core, told, &bytes[i..end], code, data, sums, room);
                core = done.core;
                told = done.told;
                i = end;
            }
        }
    }
    Reached { core, told, at: i }
}

// The chip with what is held then, its spare bytes as they were handed in, and what has been told.
fn ended(reached: Reached, collector: Collector, held: &[u8]) -> Played
    requires { length held.now < 260 }
    ensures { result ≡ ended_of reached.core reached.told collector held.now }
{
    let mut bytes = collector.bytes;
    let _ = lent::put(&mut bytes, 0, held);
    let core = reached.core;
    let told = reached.told;
    let first = told.first;
    Played {
        answer: Ok(Sent {
            bytes: told.bytes,
            frames: told.frames,
        }),
        faults: told.faults,
        first,
        chip: Chip {
            core,
            collector: Collector {
                bytes,
                len: held.len(),
            },
        },
    }
}

// How much of the stretch is joined to what is held: as much as the longest frame can take.
fn room_behind(count: usize, n: usize) -> usize
    requires { count ≤ 260 }
    ensures { result ≡ (if ltb n (260 - count) then n otherwise 260 - count) }
{
    if n < frame::LONGEST - count {
        return n;
    }
    frame::LONGEST - count
}

// What is held with the bytes that follow it, as far as the longest frame reaches: the first `len` of the array.
#[derive(Clone, Copy)]
struct Begun {
    bytes: [u8; frame::LONGEST],
    len: usize,
}

fn begin(collector: Collector, bytes: &[u8]) -> Begun
    requires { collector.len ≤ 260 }
    ensures { (take result.len result.bytes ≡ take 260 (heard collector ++ bytes.now)) × (result.len ≤ 260) }
{
    let count = collector.len;
    let k = room_behind(count, bytes.len());
    let mut begun = collector.bytes;
    let _ = lent::put(&mut begun, count, &bytes[0..k]);
    Begun {
        bytes: begun,
        len: count + k,
    }
}

// A stretch that is not refused. A frame that the chip holds the begin of is joined with the bytes that follow in an array of its own; all others are taken
// where they lie.
fn play_stretch(
    part: Part,
    chip: Chip,
    bytes: &[u8],
    code: &mut [u8],
    data: &mut [u8],
    sums: &mut [u16; 72],
    room: &mut [u8],
) -> Played
    requires { (verdict_on part chip (length code.old) (length «data».old) 32 ≡ Ok tt) × (32 * length bytes.now ≤ length room.old) }
    ensures { engine_left result (memory code.new «data».new sums.new) room.new
        ≡ leaves (played_out part (begins chip bytes.now (memory code.old «data».old sums.old))) chip room.old }
{
    let core = chip.core;
    let collector = chip.collector;
    let count = collector.len;
    let told = ToldSoFar {
        bytes: 0,
        frames: 0,
        faults: 0,
        first: Judgement::Good,
    };
    if count == 0 {
        let reached = play_from(part, core, told, bytes, 0, code, data, sums, room);
        let at = reached.at;
        return ended(reached, collector, &bytes[at..]);
    }
    let begun = begin(collector, bytes);
    let joined = begun.bytes;
    let end = begun.len;
    let n = whole(&joined[0..end]);
    if n == 0 {
        return ended(Reached { core, told, at: 0 }, collector, &joined[0..end]);
    }
    let done = answer(part, core, told, &joined[0..n], code, data, sums, room);
    let reached = play_from(
        part,
        done.core,
        done.told,
        bytes,
        n - count,
        code,
        data,
        sums,
        room,
    );
    let at = reached.at;
    ended(reached, collector, &bytes[at..])
}

// A whole stretch of bytes without gaps, for a chip that may hold part of a frame, with both areas of flash, the kept sums and the reply room lent: all replies
// lie end to end at the start of the room. Refused, it changes nothing.
pub fn play(
    part: Part,
    chip: Chip,
    bytes: &[u8],
    code: &mut [u8],
    data: &mut [u8],
    sums: &mut [u16; 72],
    room: &mut [u8],
) -> Played
    ensures { engine_left result (memory code.new «data».new sums.new) room.new
        ≡ engine_of part bytes.now chip (memory code.old «data».old sums.old) room.old }
{
    let core = chip.core;
    let collector = chip.collector;
    let handed = Handed {
        count: collector.len,
        head: collector.bytes[0],
        len: collector.bytes[1],
        code: code.len(),
        data: data.len(),
        room: 32,
    };
    let v = chip_state::verdict(part, core, handed);
    match v {
        Err(refusal) => Played {
            answer: Err(EngineRefusal::Refused(refusal)),
            faults: 0,
            first: Judgement::Good,
            chip,
        },
        Ok(()) => {
            if room.len() / 32 < bytes.len() {
                return Played {
                    answer: Err(EngineRefusal::NoRoom),
                    faults: 0,
                    first: Judgement::Good,
                    chip,
                };
            }
            play_stretch(part, chip, bytes, code, data, sums, room)
        }
    }
}
