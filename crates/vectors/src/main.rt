// Writes the worked frames of the documents by the frame layer's own code, and judges the damaged one, a line of hex for each.
// What it must print, in `stdout`, is copied from the documents: 000 chapter 2 and 003 sections 6.1.2, 6.9.2, 6.10.2, 6.11.2 and 6.13.2.
#![tactic(auto)]

use frame::wire::WriteError;
use frame::{Footer, judgement, wire};
use std::io;
use std::io::Write;

// Frames of at most eight bytes, as the documents print them.
fn show<W: Write>(out: &mut W, bytes: &[u8]) -> io::Result<()> {
    let mut text = [0u8; 24];
    if 8 < bytes.len() {
        return Ok(());
    }
    let _ = replay_hex::line(bytes, &mut text);
    let end = 3 * bytes.len();
    out.write_all(&text[0..end])
}

fn show_written<W: Write>(
    out: &mut W,
    wrote: Result<usize, WriteError>,
    room: &[u8],
) -> io::Result<()> {
    match wrote {
        Ok(n) if n <= room.len() => show(out, &room[0..n]),
        _ => Ok(()),
    }
}

fn command<W: Write>(out: &mut W, number: u8) -> io::Result<()> {
    let mut room = [0u8; 5];
    let wrote = wire::write_command(&mut room, number, &[]);
    show_written(out, wrote, &room)
}

fn data_frame<W: Write>(out: &mut W, payload: &[u8]) -> io::Result<()> {
    let mut room = [0u8; 8];
    let wrote = wire::write_data(&mut room, payload, Footer::Last);
    show_written(out, wrote, &room)
}

fn judged<W: Write>(out: &mut W, footer: Footer, bytes: &[u8]) -> io::Result<()> {
    let judgement = judgement::judge(footer, bytes);
    show(out, &[judgement.status()])
}

fn main(rt: HostRuntime) -> io::Result<()> {
    let mut out = rt.stdout();
    command(&mut out, 0xA1)?;
    command(&mut out, 0x00)?;
    command(&mut out, 0xA0)?;
    command(&mut out, 0xA2)?;
    command(&mut out, 0xC0)?;
    data_frame(&mut out, b"\xFF\x80\x40\x22")?;
    data_frame(&mut out, b"\x06")?;
    data_frame(&mut out, b"\x06\x06")?;
    judged(&mut out, Footer::Last, b"\x02\x04\xFF\x80\x40\x22\x1A\x03")?;
    judged(&mut out, Footer::Last, b"\x02\x04\xFF\x80\x40\x22\x1B\x03")?;
    judged(&mut out, Footer::More, b"\x02\x04\xFF\x80\x40\x22\x1A\x03")
}
