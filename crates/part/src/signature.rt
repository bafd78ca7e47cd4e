// The 22 bytes that C0h answers of a part: document 01, "Commands", C0h.
ghost use Rattle.std.specs.Prelude.{◌≡◌};
ghost use Rattle.part.specs.Signature.{last_bytes, signature};

use super::{Area, Part};

fn last_bytes(last: Option<usize>) -> [u8; 3]
    ensures { result ≡ last_bytes last }
{
    match last {
        Some(n) => numbers::low3(n),
        None => [0x00, 0x00, 0x00],
    }
}

pub fn bytes(part: Part) -> [u8; 22]
    ensures { result ≡ signature part }
{
    let code = last_bytes(part.last(Area::CodeFlash));
    let extra = last_bytes(part.last(Area::DataFlash));
    let mut d = [0u8; 22];
    let _ = lent::put(&mut d, 0, &part.device);
    let _ = lent::put(&mut d, 3, &part.name);
    let _ = lent::put(&mut d, 13, &code);
    let _ = lent::put(&mut d, 16, &extra);
    let _ = lent::put(&mut d, 19, &part.version);
    d
}
