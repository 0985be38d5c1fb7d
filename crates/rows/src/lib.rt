#![tactic(auto)]
// The refusals, and how their table is read (document 01, 'Where each refusal is checked').
ghost use Rattle.std.specs.Prelude.{ℕ, ◌≡◌, cond};
ghost use Rattle.rows.specs.Refusals.{number, row_above};
ghost use Rattle.rows.specs.Rows.{row as Rows·row};

// The refusals by what meets each, in the order of their numbers.
#[derive(Clone, Copy, Debug, PartialEq, Eq)]
pub enum Refusal {
    NoHead = 1,
    UnknownKind,
    CutShort,
    OutOfOrder,
    OneTooMany,
    BadName,
    RepeatedName,
    UnknownCode,
    NumberOutside,
    NotDue,
    FactorOutside,
    NoZoneOrUnit,
    StillDue,
    BadList,
    NoEntitlement,
    GrossTooLarge,
    ZoneLoadNegative,
    FinalLoadNotPositive,
    ZoneGenerationNegative,
    NetGenerationZero,
    FinalGenerationNegative,
    FlowTooLarge,
    OutputTooShort,
    HourFull,
    HourTooLong,
    OtherInterval,
    BufferTooShort,
    LakeInPart,
}

impl Refusal {
    pub fn number(self) -> u8
        ensures { result ≡ number self }
    {
        self as u8
    }
}

// One row of the table: it refuses where its condition is met, and else the rows below decide.
pub fn row(refusal: Refusal, met: bool) -> Result<(), Refusal>
    ensures value { result ≡ cond met (Err refusal) (Ok tt) }
    ensures in_table { (below : ℕ) → row_above result below ≡ Rows·row (number refusal) met below }
{
    if met { Err(refusal) } else { Ok(()) }
}

// The same by number, whichever it is: the row's, or what the rows below it say.
pub fn row_or(number: u8, met: bool, below: u8) -> u8
    ensures { result ≡ Rows·row number met below }
{
    if met { number } else { below }
}
