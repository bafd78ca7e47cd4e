// What 9Ah accepts and answers: rate code, supply and mode. Document 01, "Commands", 9Ah; a job's rate and supply are judged by it too.
ghost use Rattle.std.specs.Prelude.{◌≡◌};
ghost use Rattle.part.specs.Rate.{accepts_rate, mode_of};

use super::Part;

// The supply is in 100 m_v.
pub fn accepts(part: Part, rate: u32, supply: u32) -> bool
    ensures { result ≡ accepts_rate part rate supply }
{
    rate <= 0x03 && (18..=55).contains(&supply)
}

pub fn mode(part: Part, supply: u32) -> u8
    ensures { result ≡ mode_of part supply }
{
    if 27 <= supply { 0x00 } else { 0x01 }
}
