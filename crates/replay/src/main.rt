// Replays a recorded capture, of the form that it is told, into a fresh chip and prints each reply frame as a line of hex: document 01, "Replay", and 02, section 5.
// The records are judged, fed and answered by `replay_records::replay`; here the capture is read and the lines are printed.
#![tactic(auto)]

ghost use Rattle.std.specs.Prelude.{◌+◌, ◌≤◌, length, IfOk};

use chip::events;
use chip_state::Chip;
use console::Progress;
use part::Part;
use replay_capture::Form;
use replay_records::Halt;
use std::fs::File;
use std::io;
use std::io::{ErrorKind, Read, Write};
use std::rt::Runtime;

// Where so many characters have room in the text: after those used, or, these having gone out, at the start.
fn room_for<W: Write>(out: &mut W, need: usize, text: &[u8], used: usize) -> io::Result<usize>
    requires need { need ≤ length text.now }
    requires used { used ≤ length text.now }
    ensures { IfOk result (λ at. at + need ≤ length text.now) }
{
    if need <= text.len() - used {
        return Ok(used);
    }
    out.write_all(&text[0..used])?;
    Ok(0)
}

// Reply frames that lie end to end, a line each. The lines go out when the text is full and at the end.
fn show<W: Write>(out: &mut W, frames: &[u8], text: &mut [u8]) -> io::Result<()>
    requires { 1024 ≤ length text.old }
{
    let mut at = 0;
    let mut used = 0;
    while at < frames.len() {
        let rest = frames.len() - at;
        if rest < 5 {
            return Err(io::Error::from(ErrorKind::InvalidData));
        }
        let payload = frame::counted(frames[at + 1]);
        if 256 < payload {
            return Err(io::Error::from(ErrorKind::InvalidData));
        }
        let n = payload + frame::OVERHEAD;
        if rest < n {
            return Err(io::Error::from(ErrorKind::InvalidData));
        }
        let from = room_for(out, 3 * n, text, used)?;
        let end = at + n;
        let _ = replay_hex::line(&frames[at..end], &mut text[from..]);
        used = from + 3 * n;
        at = end;
    }
    out.write_all(&text[0..used])
}

// Why a buffer of the capture is the last one: a record that is not good, or what was told where it was met.
#[derive(Clone, Copy)]
enum Stop {
    Bad,
    Lost,
}

#[derive(Drop)]
struct Went {
    ended: Result<(), Stop>,
    chip: Chip,
    records: usize,
    frames: usize,
    progress: Progress,
}

// Neither a refusal nor want of output occurs: the output is long enough for the buffer's records, and then it is proved (claims_replay).
fn halted(rt: &impl Eprint, halt: Halt, progress: Progress) -> Stop {
    match halt {
        Halt::AtBadRecord => Stop::Bad,
        Halt::OutputFull => {
            console::say(
                rt,
                progress,
                "replay: the output was too short, which should not occur\n",
            );
            Stop::Lost
        }
        Halt::Refused(refusal) => {
            console::say(
                rt,
                progress,
                "replay: a call of the chip was refused, which should not occur; refusal ",
            );
            let number = refusal.number();
            let _ = eprintln!(rt; "{number}");
            Stop::Lost
        }
    }
}

fn unwritten(rt: &(impl Eprint + Alloc), error: io::Error, progress: Progress) -> Stop {
    console::erase(rt, progress);
    console::fail(rt, "replay", "standard output", error);
    Stop::Lost
}

// The records of one buffer, and the lines of their replies.
fn turn<W: Write>(
    rt: &(impl Eprint + Alloc),
    out: &mut W,
    form: Form,
    part: Part,
    chip: Chip,
    capture: &[u8],
    code: &mut [u8],
    data: &mut [u8],
    sums: &mut [u16; 72],
    room: &mut [u8],
    output: &mut [u8],
    text: &mut [u8],
    progress: Progress,
) -> Went
    requires { 1024 ≤ length text.old }
{
    let played = replay_records::replay(form, part, chip, capture, code, data, sums, room, output);
    let n = played.bytes;
    let after = played.chip;
    if output.len() < n {
        console::say(
            rt,
            progress,
            "replay: more replies than room for them, which should not occur\n",
        );
        return Went {
            ended: Err(Stop::Lost),
            chip: after,
            records: 0,
            frames: 0,
            progress,
        };
    }
    let progress = console::make_way(rt, progress, n);
    let shown = show(out, &output[0..n], text);
    let ended = played.ended.map_err(|halt| halted(rt, halt, progress));
    Went {
        ended: shown
            .map_err(|error| unwritten(rt, error, progress))
            .and(ended),
        chip: after,
        records: played.records,
        frames: played.frames,
        progress,
    }
}

// The last line, a word and a number; a message where it cannot be written.
fn last_line<W: Write>(
    rt: &(impl Eprint + Alloc),
    out: &mut W,
    progress: Progress,
    word: &str,
    n: u64,
) {
    console::erase(rt, progress);
    if let Err(error) = writeln!(out, "{word} {n}") {
        console::fail(rt, "replay", "standard output", error);
    }
}

// The sums are worked out once, on the fresh flash. A buffer of 2,048 bytes is 256 old records or 128 new ones, for whose replies the output has room. A proved
// loop has to end, and nothing says that the input does: so it counts its turns, up to a number that no run comes to.
fn replay<R: Read, W: Write>(
    rt: &(impl Eprint + Alloc),
    from: &mut R,
    out: &mut W,
    form: Form,
    name: &str,
    at_first: Progress,
) {
    let part = replay_records::replay_part();
    let fresh = events::fresh(part);
    let mut chip = fresh.chip;
    let mut code = [0xFFu8; 16384];
    let mut data = [0xFFu8; 4096];
    let mut sums = [0u16; 72];
    let _ = chip_sums::work_out(part, &code, &data, &mut sums);
    let mut room = [0u8; 32];
    let mut capture = [0u8; 2048];
    let mut output = [0u8; 65536];
    let mut text = [0u8; 65536];
    let mut records = 0u64;
    let mut frames = 0u64;
    let mut progress = at_first;
    for _ in 0..u64::MAX {
        let filled = console::fill(from, &mut capture);
        let n = filled.n;
        if let Some(error) = filled.error {
            console::erase(rt, progress);
            console::fail(rt, "replay", name, error);
            return;
        }
        let went = turn(
            rt,
            out,
            form,
            part,
            chip,
            &capture[0..n],
            &mut code,
            &mut data,
            &mut sums,
            &mut room,
            &mut output,
            &mut text,
            progress,
        );
        chip = went.chip;
        records = records.wrapping_add(went.records as u64);
        frames = frames.wrapping_add(went.frames as u64);
        match went.ended {
            Ok(()) => {
                if n < 2048 {
                    last_line(rt, out, went.progress, "END", frames);
                    return;
                }
                progress = console::show_progress(rt, went.progress, "replay", records);
            }
            Err(Stop::Bad) => {
                last_line(rt, out, went.progress, "BAD", records);
                return;
            }
            Err(Stop::Lost) => return,
        }
    }
}

fn help(rt: &impl Print) {
    let _ = rt.println(
        "replay [--old | --new] [CAPTURE]: replays a recorded capture, from standard input where no file is named, into a fresh chip",
    );
    let _ = rt.println(
        "(16 code and 4 data blocks, clock 32) and prints each reply frame as a line of hex. The last line is END and",
    );
    let _ = rt.println(
        "the number of reply frames, or BAD and the number, from 0, of the first record that is not good.",
    );
    let _ = rt.println(
        "An old record, the form unless told, has 8 bytes: 00 and seven bytes 00 for a gap; or 01, a count from 1 to 6, that many bytes, then 00 up to 8 bytes.",
    );
    let _ = rt.println(
        "A new one has 16: kind and count, the seat (0 or 1), 00, a tick of four bytes, low first, and eight data bytes, of which those past the count are 00.",
    );
    let _ = rt.println("Records of seat 1 are judged and counted, and not played.");
    let _ = rt.println(
        "A long capture shows its progress on standard error where that is a terminal: the number of records played, every 65,536.",
    );
}

// What an argument asks for.
#[derive(Clone, Copy)]
enum Word {
    Help,
    Read(Form),
    Capture,
}

fn meaning(word: &str) -> Word {
    match word {
        "--help" => Word::Help,
        "--old" => Word::Read(Form::Old),
        "--new" => Word::Read(Form::New),
        _ => Word::Capture,
    }
}

// The capture in a file.
fn replay_file(rt: &impl Runtime, form: Form, name: &str, progress: Progress) {
    match File::open(rt, name) {
        Ok(mut file) => replay(rt, &mut file, &mut io::writer(rt), form, name, progress),
        Err(error) => console::fail(rt, "replay", name, error),
    }
}

// The capture that the argument at a place names, or standard input where there is none.
fn replay_named(rt: &impl Runtime, form: Form, i: usize, progress: Progress) {
    if console::has_argument(rt, i.saturating_add(1)) {
        let _ = eprintln!(rt; "replay: one form and one capture can be named; see replay --help");
        return;
    }
    let mut path = [0u8; 4096];
    match console::argument(rt, i, &mut path) {
        Ok(None) => replay(
            rt,
            &mut rt.reader(),
            &mut io::writer(rt),
            form,
            "standard input",
            progress,
        ),
        Ok(Some(name)) => match meaning(name) {
            Word::Capture => replay_file(rt, form, name, progress),
            Word::Read(_) => {
                let _ = eprintln!(rt; "replay: more than one form is told; see replay --help");
            }
            Word::Help => help(rt),
        },
        Err(error) => console::fail(rt, "replay", "its argument", error),
    }
}

fn main(rt: HostRuntime) {
    let progress = console::no_progress(&rt.stdout(), &rt.stderr());
    let mut room = [0u8; 4096];
    match console::argument(&rt, 1, &mut room) {
        Ok(Some(word)) => match meaning(word) {
            Word::Help => help(&rt),
            Word::Read(form) => replay_named(&rt, form, 2, progress),
            Word::Capture => replay_named(&rt, Form::Old, 1, progress),
        },
        _ => replay_named(&rt, Form::Old, 1, progress),
    }
}
