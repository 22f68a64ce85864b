// Why a call refuses, by the names of include/kewohiata.h.
ghost use Rattle.std.specs.Prelude.{◌≡◌};
ghost use Rattle.kinds.specs.Refusals.{number, place_told, fault_numbered, fault_at};

// Rules R1 to R25, in the order of their numbers. One that tells a place holds it (rule A5).
#[derive(Clone, Copy, Debug, PartialEq, Eq)]
pub enum Refusal {
    TooMany,
    NotFinite(u32),
    TooLarge(u32),
    WrongLength,
    WrongParts,
    NoSuchBlock,
    BlockNotPending,
    UnsoundNumbers,
    RegisterFull,
    NoFiniteDouble,
    SheetTooShort,
    OtherVersion,
    SheetTooLong,
    NotAWeight(u32),
    WrongTotal,
    NoSuchClock,
    NoOtherWeight,
    UnsoundSet,
    UnsoundWork(u32),
    ClaimNotFinite,
    OtherEnsemble,
    LengthsDiffer,
    FactorOutside(u32),
    TooManyCalls,
    NoRoom,
}

impl Refusal {
    // The number of its rule.
    pub fn number(self) -> u32
        ensures { result ≡ number self }
    {
        match self {
            Refusal::TooMany => 1,
            Refusal::NotFinite(_) => 2,
            Refusal::TooLarge(_) => 3,
            Refusal::WrongLength => 4,
            Refusal::WrongParts => 5,
            Refusal::NoSuchBlock => 6,
            Refusal::BlockNotPending => 7,
            Refusal::UnsoundNumbers => 8,
            Refusal::RegisterFull => 9,
            Refusal::NoFiniteDouble => 10,
            Refusal::SheetTooShort => 11,
            Refusal::OtherVersion => 12,
            Refusal::SheetTooLong => 13,
            Refusal::NotAWeight(_) => 14,
            Refusal::WrongTotal => 15,
            Refusal::NoSuchClock => 16,
            Refusal::NoOtherWeight => 17,
            Refusal::UnsoundSet => 18,
            Refusal::UnsoundWork(_) => 19,
            Refusal::ClaimNotFinite => 20,
            Refusal::OtherEnsemble => 21,
            Refusal::LengthsDiffer => 22,
            Refusal::FactorOutside(_) => 23,
            Refusal::TooManyCalls => 24,
            Refusal::NoRoom => 25,
        }
    }

    // The place that it tells.
    pub fn place(self) -> Option<u32>
        ensures { result ≡ place_told self }
    {
        match self {
            Refusal::NotFinite(place)
            | Refusal::TooLarge(place)
            | Refusal::NotAWeight(place)
            | Refusal::UnsoundWork(place)
            | Refusal::FactorOutside(place) => Some(place),
            _ => None,
        }
    }
}

// What may be wrong with one number of a list: rules R2 and R3.
#[derive(Clone, Copy, Debug, PartialEq, Eq)]
pub enum Fault {
    NotFinite,
    TooLarge,
}

impl Fault {
    // The refusal of a list whose number at that place has the fault.
    pub fn at(self, place: u32) -> Refusal
        ensures { result ≡ fault_at self place }
    {
        match self {
            Fault::NotFinite => Refusal::NotFinite(place),
            Fault::TooLarge => Refusal::TooLarge(place),
        }
    }
}
