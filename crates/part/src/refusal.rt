// The nine refusals and their numbers: document 01, "Refusal numbers". Chip and dock share them.
ghost use Rattle.std.specs.Prelude.{◌≡◌};
ghost use Rattle.part.specs.Refusal.{number};

#[derive(Clone, Copy, Debug, PartialEq, Eq)]
pub enum Refusal {
    BadPart,
    CodeLength,
    DataLength,
    ShortRoom,
    BadRange,
    ImageLength,
    ManyRetries,
    OutOfTurn,
    BadState,
}

impl Refusal {
    pub fn number(self) -> u8
        ensures { result ≡ number self }
    {
        match self {
            Refusal::BadPart => 1,
            Refusal::CodeLength => 2,
            Refusal::DataLength => 3,
            Refusal::ShortRoom => 4,
            Refusal::BadRange => 5,
            Refusal::ImageLength => 6,
            Refusal::ManyRetries => 7,
            Refusal::OutOfTurn => 8,
            Refusal::BadState => 9,
        }
    }
}
