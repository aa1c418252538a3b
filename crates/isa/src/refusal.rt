// Why a call is refused. Each refusal has one number, under which it is reported everywhere.
ghost use Rattle.std.specs.Prelude.{◌≡◌};
ghost use Rattle.isa.specs.Refusals.{number};

#[derive(Clone, Copy, Debug, PartialEq, Eq)]
pub enum Refusal {
    Closed = 1,
    ScheduleFull,
    NoRow,
    FieldRange,
    ConditionForbidden,
    UnitForbidden,
    OperandMismatch,
    SideOrFlag,
    RecordsOpen,
    PacketTooLong,
    UnitTwice,
    TwoLongNops,
    DataPathTwice,
    NonalignedAccess,
    CrossPathOperands,
    CrossPathCount,
    ReadCount,
    WritePort,
    DoubleWrite,
    LawfulSetEmpty,
    FileSize,
    BlockRange,
    BlockLayout,
    RowFileLayout,
    BufferTooSmall,
}

impl Refusal {
    // Not a `From`: `u8::from` would not say that this is the number.
    pub fn number(self) -> u8
        ensures value { result ≡ number self }
    {
        self as u8
    }
}
