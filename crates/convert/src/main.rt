// Converts a recorded capture from one form to the other: document 02, section 5. All of it is judged before anything is written; here it is read, twice, and
// written. Judging and rewriting are `conversion`'s.
#![tactic(auto)]

ghost use Rattle.std.specs.Prelude.{◌≤◌};

use console::Progress;
use conversion::{Asked, ConvertError};
use replay_capture::Form;
use std::fs::{File, OpenFile, OpenOptions};
use std::io::{Read, Seek, Write};
use std::rt::{Files, Runtime};
use std::{fs, io};

// A message that begins with the program's name.
fn fail_at(rt: &(impl Eprint + Alloc), name: &str, error: io::Error) {
    console::fail(rt, "convert", name, error);
}

// The last line, on standard output; a message where it cannot be written.
fn last_line(rt: &(impl Print + Eprint + Alloc), word: &str, n: u64) {
    if let Err(error) = println!(rt; "{word} {n}") {
        fail_at(rt, "standard output", error);
    }
}

// Why a capture is not converted: a record that is not good, or one that the old form cannot hold, by its number.
#[derive(Clone, Copy)]
enum Unfit {
    Bad(u64),
    NotHeld(u64),
}

// A refusal with its record's number: a line for the reader on standard error, and one for a script on standard output.
fn refuse(rt: &(impl Print + Eprint + Alloc), unfit: Unfit) {
    let (why, record) = match unfit {
        Unfit::Bad(k) => (ConvertError::BadRecordAt(0), k),
        Unfit::NotHeld(k) => (ConvertError::NotHeldAt(0), k),
    };
    let number = conversion::number(Err(why));
    let _ = eprintln!(rt; "convert: refused {number}, record {record}");
    if let Err(error) = println!(rt; "REFUSED {number} {record}") {
        fail_at(rt, "standard output", error);
    }
}

// What a buffer, which begins with so many records before it, adds to the judgement so far.
fn judge_buffer(
    from: Form,
    so_far: Result<(), Unfit>,
    capture: &[u8],
    before: u64,
) -> Result<(), Unfit> {
    if let Some(k) = conversion::first_not(from, Asked::Good, capture) {
        return Err(Unfit::Bad(before.wrapping_add(k as u64)));
    }
    so_far?;
    match conversion::first_not(from, Asked::Held, capture) {
        Some(k) => Err(Unfit::NotHeld(before.wrapping_add(k as u64))),
        None => Ok(()),
    }
}

// Reads a capture to its end, or up to the first buffer that the step refuses: each buffer, with how many records came before it. How many records that is, or why it
// was refused; none where it cannot be read, which was told. A proved loop has to end, and nothing says that the input does: so it counts its turns, up to a number
// that no run comes to.
fn each_buffer<R: Read, E, F: FnMut(&[u8], u64) -> Result<(), E>>(
    rt: &(impl Eprint + Alloc),
    from: Form,
    file: &mut R,
    name: &str,
    at_first: Progress,
    mut step: F,
) -> Option<Result<u64, E>>
    requires { F.IsAlwaysCallable step }
{
    let mut capture = [0u8; 32768];
    let mut records = 0u64;
    let mut progress = at_first;
    for _ in 0..u64::MAX {
        let filled = console::fill(file, &mut capture);
        let n = filled.n;
        if let Some(error) = filled.error {
            console::erase(rt, progress);
            fail_at(rt, name, error);
            return None;
        }
        if let Err(why) = step(&capture[0..n], records) {
            console::erase(rt, progress);
            return Some(Err(why));
        }
        records = records.wrapping_add((n / replay_capture::record_size(from)) as u64);
        if n < 32768 {
            console::erase(rt, progress);
            return Some(Ok(records));
        }
        progress = console::show_progress(rt, progress, "convert", records);
    }
    None
}

// The first reading. A record that is not good ends it; one that the old form cannot hold does not, since a bad one behind it comes first.
fn judge_capture<R: Read>(
    rt: &(impl Eprint + Alloc),
    from: Form,
    file: &mut R,
    name: &str,
    progress: Progress,
) -> Option<Result<(), Unfit>> {
    let mut judged = Ok(());
    let _ = each_buffer(rt, from, file, name, progress, |capture, before| {
        judged = judge_buffer(from, judged, capture, before);
        match judged {
            Err(Unfit::Bad(_)) => judged,
            _ => Ok(()),
        }
    })?;
    Some(judged)
}

// Why a buffer was not written: it is refused now, since the file has changed after it was judged; or the system did not take it.
#[derive(Drop)]
enum Unwritten {
    Changed,
    Failed(io::Error),
}

// The second reading: each buffer is converted and written. How many records that is, where all of them are written; else why not was told.
fn write<R: Read, W: Write>(
    rt: &(impl Eprint + Alloc),
    from: Form,
    file: &mut R,
    name: &str,
    out: &mut W,
    out_name: &str,
    progress: Progress,
) -> Option<u64> {
    let mut output = [0u8; 65536];
    let wrote = each_buffer(rt, from, file, name, progress, |capture, _| {
        match conversion::convert(from, capture, &mut output) {
            Ok(n) => out
                .write_all(lent::span(&output, 0, n))
                .map_err(|error| Unwritten::Failed(error)),
            Err(_) => Err(Unwritten::Changed),
        }
    })?;
    match wrote {
        Ok(records) => return Some(records),
        Err(Unwritten::Changed) => {
            let _ = eprintln!(rt; "convert: {name}: it has changed while it was read");
        }
        Err(Unwritten::Failed(error)) => fail_at(rt, out_name, error),
    }
    None
}

// Makes the file, which must be a new one, and open for writing.
fn create_new<R: Files>(rt: &R, name: &str) -> io::Result<R::File> {
    let mut how = OpenOptions::new();
    how.write(true).create_new(true);
    how.open(rt, name)
}

// What is judged fit, from the file's start once more, into OUT, which is made only now. It must be a new file: no other is written over, IN least of all. What could
// not be written whole goes again. std closes a file without a word, so what the system has kept back is asked for before.
fn write_out<R: Runtime>(
    rt: &R,
    from: Form,
    file: &mut R::File,
    name: &str,
    out_name: &str,
    progress: Progress,
) {
    if let Err(error) = file.rewind() {
        fail_at(rt, name, error);
        return;
    }
    match create_new(rt, out_name) {
        Err(error) => fail_at(rt, out_name, error),
        Ok(mut out) => {
            if let Some(records) = write(rt, from, file, name, &mut out, out_name, progress) {
                match out.sync_data() {
                    Ok(()) => {
                        last_line(rt, "END", records);
                        return;
                    }
                    Err(error) => fail_at(rt, out_name, error),
                }
            }
            let _ = fs::remove_file(rt, out_name);
        }
    }
}

fn convert<R: Runtime>(
    rt: &R,
    from: Form,
    file: &mut R::File,
    name: &str,
    out_name: &str,
    progress: Progress,
) {
    match judge_capture(rt, from, file, name, progress) {
        Some(Ok(())) => write_out(rt, from, file, name, out_name, progress),
        Some(Err(unfit)) => refuse(rt, unfit),
        None => {}
    }
}

fn help(rt: &impl Print) {
    let _ = rt.println(
        "convert --to-new|--to-old IN OUT: writes the capture IN in the other form to OUT, one record for one, and prints END and their number.",
    );
    let _ = rt.println(
        "--to-new reads records of 8 bytes and writes records of 16, with seat 0 and tick 0; --to-old reads records of 16 bytes and writes records of 8.",
    );
    let _ = rt.println(
        "Refused, with the record's number from 0, are 10, a record that is not good, and 11, one that the old form cannot hold: of another seat than 0,",
    );
    let _ = rt.println(
        "of another tick than 0, or with more than six bytes. A refusal is a line on standard error, and REFUSED with both numbers on standard output.",
    );
    let _ = rt.println(
        "IN is a file, and is read twice: where anything is refused, OUT is not made. A file that is there already is not written over.",
    );
    let _ = rt.println(
        "A long capture shows its progress on standard error where that is a terminal: the number of records read, every 65,536, in each reading.",
    );
}

fn misused(rt: &impl Eprint) {
    let _ = rt.eprintln("convert: which way? convert --to-new|--to-old IN OUT; see convert --help");
}

// What the first argument asks for.
#[derive(Clone, Copy)]
enum Word {
    Help,
    Read(Form),
}

fn meaning(word: &str) -> Option<Word> {
    match word {
        "--help" => Some(Word::Help),
        "--to-new" => Some(Word::Read(Form::Old)),
        "--to-old" => Some(Word::Read(Form::New)),
        _ => None,
    }
}

// The capture in a file, into a file.
fn convert_file(rt: &impl Runtime, from: Form, name: &str, out_name: &str, progress: Progress) {
    match File::open(rt, name) {
        Ok(mut file) => convert(rt, from, &mut file, name, out_name, progress),
        Err(error) => fail_at(rt, name, error),
    }
}

// The files that the second and the third argument name.
fn convert_named(rt: &impl Runtime, from: Form, progress: Progress) {
    if !console::has_argument(rt, 3) || console::has_argument(rt, 4) {
        misused(rt);
        return;
    }
    let mut path = [0u8; 4096];
    let mut out_path = [0u8; 4096];
    let name = console::argument(rt, 2, &mut path);
    let out_name = console::argument(rt, 3, &mut out_path);
    match (name, out_name) {
        (Err(error), _) => fail_at(rt, "IN", error),
        (_, Err(error)) => fail_at(rt, "OUT", error),
        (Ok(Some(name)), Ok(Some(out_name))) => convert_file(rt, from, name, out_name, progress),
        _ => misused(rt),
    }
}

fn main(rt: HostRuntime) {
    let progress = console::no_progress(&rt.stdout(), &rt.stderr());
    let mut word = [0u8; 4096];
    match console::argument(&rt, 1, &mut word) {
        Ok(Some(text)) => match meaning(text) {
            Some(Word::Help) => help(&rt),
            Some(Word::Read(from)) => convert_named(&rt, from, progress),
            None => misused(&rt),
        },
        _ => misused(&rt),
    }
}
