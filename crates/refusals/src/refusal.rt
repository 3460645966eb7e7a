// The refusals and their numbers. `specs/Refusals.antt` has the documents' words for each.
ghost use Rattle.std.specs.Prelude.{◌≡◌};
ghost use Rattle.refusals.specs.Refusals.{number_of, number_or_0};

#[derive(Clone, Copy, Debug, PartialEq, Eq)]
pub enum Refusal {
    NoPart,
    ArrayLength,
    KeptBits,
    Unsound,
    NoEvent,
    HoldWithSck,
    HoldWithCs,
    Malformed,
    TooLarge,
    Beyond,
    NoRoom,
    FewAnswers,
    ChipCount,
    NoChip,
    SerialLength,
    CounterCount,
}

// The number that the table gives a refusal.
impl From<Refusal> for u8 {
    ghost from_gives = { λ refusal n. n ≡ number_of refusal };

    fn from(refusal: Refusal) -> u8 {
        match refusal {
            Refusal::NoPart => 1,
            Refusal::ArrayLength => 2,
            Refusal::KeptBits => 3,
            Refusal::Unsound => 4,
            Refusal::NoEvent => 5,
            Refusal::HoldWithSck => 6,
            Refusal::HoldWithCs => 7,
            Refusal::Malformed => 8,
            Refusal::TooLarge => 9,
            Refusal::Beyond => 10,
            Refusal::NoRoom => 11,
            Refusal::FewAnswers => 12,
            Refusal::ChipCount => 13,
            Refusal::NoChip => 14,
            Refusal::SerialLength => 15,
            Refusal::CounterCount => 16,
        }
    }
}

// "a refusal number or 0"
pub fn number_or_0(refusal: Option<Refusal>) -> u8
    ensures { result ≡ number_or_0 refusal }
{
    match refusal {
        None => 0,
        Some(refusal) => u8::from(refusal),
    }
}
