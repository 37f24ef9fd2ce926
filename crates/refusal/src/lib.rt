// Why a call is turned down: the causes of document 01 and those that document 02 adds, one name each.
#![tactic(auto)]

ghost use Rattle.std.specs.Prelude.{◌≡◌};
ghost use Rattle.refusal.specs.Numbers.{number_of};
ghost use Rattle.refusal.specs.Checks as Checks;

#[derive(Clone, Copy, Debug, PartialEq, Eq)]
pub enum Cause {
    Kind,
    InputWidth,
    OutputWidth,
    GuardBits,
    InitialBits,
    TableCount,
    SegmentBits,
    OffsetBits,
    CutSum,
    TablesShort,
    NotAdmitted,
    WordRange,
    SumRange,
    OutputShort,
    Line,
    Frame,
    State,
    EntryWidth,
    LineNumber,
    AddressRange,
    Record,
    RecordDue,
    InitialRange,
    NoneAdmitted,
}

// The number that documents 01 and 02 give a cause.
impl From<Cause> for u8 {
    ghost from_gives = { λ cause number. number ≡ number_of cause };

    fn from(cause: Cause) -> u8 {
        match cause {
            Cause::Kind => 1,
            Cause::InputWidth => 2,
            Cause::OutputWidth => 3,
            Cause::GuardBits => 4,
            Cause::InitialBits => 5,
            Cause::TableCount => 6,
            Cause::SegmentBits => 7,
            Cause::OffsetBits => 8,
            Cause::CutSum => 9,
            Cause::TablesShort => 10,
            Cause::NotAdmitted => 11,
            Cause::WordRange => 12,
            Cause::SumRange => 13,
            Cause::OutputShort => 14,
            Cause::Line => 15,
            Cause::Frame => 16,
            Cause::State => 17,
            Cause::EntryWidth => 18,
            Cause::LineNumber => 19,
            Cause::AddressRange => 20,
            Cause::Record => 21,
            Cause::RecordDue => 22,
            Cause::InitialRange => 23,
            Cause::NoneAdmitted => 24,
        }
    }
}

// Whether n is not one of low..high, both included. `contains` of a range would be no plainer than the two comparisons.
pub fn outside(low: u32, high: u32, n: u32) -> bool
    ensures { result ≡ Checks.outside low high n }
{
    n < low || high < n
}
