// The eleven commands of document 01, "Commands": read off the payload of a frame, and written as a command frame.
#![tactic(auto)]

ghost use Rattle.std.specs.Prelude.{◌≡◌, [], ◌++◌, ◌∷◌, ◌≤◌, length, take};
ghost use Rattle.numbers.specs.Numbers.{low_first};
ghost use Rattle.frame.specs.Wire.{wrote, write_of};
ghost use Rattle.frame.specs.declared.Footer.TheVariants.{Last};
ghost use Rattle.frame.specs.declared.Header.TheVariants as Header;
ghost use Rattle.commands.specs.Commands.{com_of, fitted, information_of, payload_of, read_command};

use frame::wire::WriteError;

// Addresses are three bytes on the wire.
#[derive(Clone, Copy)]
pub enum Command {
    RateSet { rate: u8, supply: u8 },
    Reset,
    BlockErase { start: usize },
    BlankCheck { start: usize, end: usize, d01: u8 },
    Programming { start: usize, end: usize },
    Verify { start: usize, end: usize },
    Checksum { start: usize, end: usize },
    SignatureGet,
    SecurityGet,
    SecuritySet,
    SecurityRelease,
}

// Why a payload is no command: its LEN is not the command's, or no command begins so.
#[derive(Clone, Copy, Debug, PartialEq, Eq)]
pub enum Misread {
    UnfitLen,
    Unknown,
}

#[tactic(auto, unfolding(crate::specs::Commands::com_of))]
pub fn com(c: Command) -> u8
    ensures { result ≡ com_of c }
{
    match c {
        Command::RateSet { .. } => 0x9A,
        Command::Reset => 0x00,
        Command::BlockErase { .. } => 0x22,
        Command::BlankCheck { .. } => 0x32,
        Command::Programming { .. } => 0x40,
        Command::Verify { .. } => 0x13,
        Command::Checksum { .. } => 0xB0,
        Command::SignatureGet => 0xC0,
        Command::SecurityGet => 0xA1,
        Command::SecuritySet => 0xA0,
        Command::SecurityRelease => 0xA2,
    }
}

fn fit(n: usize, len: usize, c: Command) -> Result<Command, Misread>
    ensures { result ≡ fitted n len c }
{
    if n == len {
        return Ok(c);
    }
    Err(Misread::UnfitLen)
}

pub fn read(payload: &[u8]) -> Result<Command, Misread>
    ensures { result ≡ read_command payload.now }
{
    let n = payload.len();
    match lent::byte_at(payload, 0) {
        0x9A => {
            let rate = lent::byte_at(payload, 1);
            let supply = lent::byte_at(payload, 2);
            fit(n, 3, Command::RateSet { rate, supply })
        }
        0x00 => fit(n, 1, Command::Reset),
        0x22 => {
            let start = numbers::number3(payload, 1);
            fit(n, 4, Command::BlockErase { start })
        }
        0x32 => {
            let start = numbers::number3(payload, 1);
            let end = numbers::number3(payload, 4);
            let d01 = lent::byte_at(payload, 7);
            fit(n, 8, Command::BlankCheck { start, end, d01 })
        }
        0x40 => {
            let start = numbers::number3(payload, 1);
            let end = numbers::number3(payload, 4);
            fit(n, 7, Command::Programming { start, end })
        }
        0x13 => {
            let start = numbers::number3(payload, 1);
            let end = numbers::number3(payload, 4);
            fit(n, 7, Command::Verify { start, end })
        }
        0xB0 => {
            let start = numbers::number3(payload, 1);
            let end = numbers::number3(payload, 4);
            fit(n, 7, Command::Checksum { start, end })
        }
        0xC0 => fit(n, 1, Command::SignatureGet),
        0xA1 => fit(n, 1, Command::SecurityGet),
        0xA0 => fit(n, 1, Command::SecuritySet),
        0xA2 => fit(n, 1, Command::SecurityRelease),
        _ => Err(Misread::Unknown),
    }
}

// Two addresses and a byte, one after the other.
fn addresses(start: usize, end: usize, last: u8) -> [u8; 7]
    ensures { result ≡ low_first 3 start ++ low_first 3 end ++ last ∷ [] }
{
    let s = numbers::low3(start);
    let e = numbers::low3(end);
    [s[0], s[1], s[2], e[0], e[1], e[2], last]
}

// The information of a command lies at the start of an array that has room for the longest.
#[tactic(auto, unfolding(crate::specs::Commands::information_of))]
fn information(c: Command) -> [u8; 7]
    ensures { take (length (information_of c)) result ≡ information_of c }
{
    match c {
        Command::RateSet { rate, supply } => [rate, supply, 0, 0, 0, 0, 0],
        Command::BlockErase { start } => addresses(start, 0, 0),
        Command::BlankCheck { start, end, d01 } => addresses(start, end, d01),
        Command::Programming { start, end }
        | Command::Verify { start, end }
        | Command::Checksum { start, end } => addresses(start, end, 0),
        Command::Reset
        | Command::SignatureGet
        | Command::SecurityGet
        | Command::SecuritySet
        | Command::SecurityRelease => [0u8; 7],
    }
}

#[tactic(auto, using(crate::proofs::Laws::low3_long, crate::proofs::Laws::low3_longer), unfolding(crate::specs::Commands::information_of))]
fn information_length(c: Command) -> usize
    ensures { (result ≡ length (information_of c)) × (result ≤ 7) }
{
    match c {
        Command::RateSet { .. } => 2,
        Command::BlockErase { .. } => 3,
        Command::BlankCheck { .. } => 7,
        Command::Programming { .. } | Command::Verify { .. } | Command::Checksum { .. } => 6,
        Command::Reset
        | Command::SignatureGet
        | Command::SecurityGet
        | Command::SecuritySet
        | Command::SecurityRelease => 0,
    }
}

// The command as a command frame at the start of the room.
pub fn write(room: &mut [u8], c: Command) -> Result<usize, WriteError>
    ensures { wrote result room.new ≡ write_of room.old Header.Command (payload_of c) Last }
{
    let bytes = information(c);
    frame::wire::write_command(room, com(c), &bytes[..information_length(c)])
}
