// The specification, "Numbers of refusal and their order": each refusal by name.
ghost use Rattle.std.specs.Prelude.{◌≡◌};
ghost use Rattle.iscc.specs.Refusals.{refusals, refusal, refusal_number};
ghost use Rattle.iscc.specs.Detailed.{with_detail, plain};

use crate::other_number::OtherNumber;

// Why a call refused. The definitions in specs/ speak of this very type.
#[derive(Clone, Copy, Debug, PartialEq, Eq)]
pub enum Refusal {
    // Nothing is left after the dropping.
    EmptyText,

    // The text is longer than 1,024 bytes.
    LongText,

    // More than 80 characters are left.
    LongRun,

    // A character is outside the alphabet.
    BadCharacter,

    // The count of characters leaves 1, 3 or 6 over a multiple of 8.
    BadCount,

    // A spare bit after the last whole byte is not zero.
    SpareBits,

    // A header is cut, has the prefix 1111, or a pad nibble that is not zero.
    BadHeader,

    // A header is not permitted, or not there: a composite for the unit writer, anything else for split.
    NotPermitted,

    // Fewer body bytes than the header says.
    ShortBody,

    // Two or more items, one being a composite or an ID; or join of one item that is such.
    NotJoinable,

    // A unit in a list is not of 64 bits.
    Not64Bits,

    // A main type is twice in a list.
    MainTypeTwice,

    // A list lacks DATA or INSTANCE.
    LacksDataOrInstance,

    // SEMANTIC and CONTENT differ in subtype.
    SubtypesDiffer,

    // The output area is too short.
    AreaTooShort,

    // Strict door: intake accepts, but would write another text.
    OtherText,

    // A number above 4679 to be written as a varnibble.
    NumberTooLarge,

    // Two units that have no distance.
    NoDistance,

    // Bytes left over where exactly one unit is wanted.
    BytesLeftOver,

    // The code is out already.
    AlreadyOut,

    // 256 others are out.
    AllOut,

    // The code is not out.
    NotOut,

    // The area is not a register.
    NotRegister,

    // No record of the log: another tag, code bytes that are not exactly one unit or composite, or record number 0.
    NotRecord,

    // The record is not the next: others before it are missing.
    NumberGap,

    // The last record number is taken.
    NumbersSpent,

    // Promotion: only the last numbers differ.
    LastNumbersDiffer,

    // Promotion: the log is torn.
    LogTorn,

    // Promotion: a code is held by one register only, or with another borrower.
    LoansDiffer,

    // A number that no call gives: who calls may have it from elsewhere.
    Other(OtherNumber),
}

// Why a call refused, and what the refusal tells: an offset, an item's index or a main type's number; 0 where it tells nothing.
#[derive(Clone, Copy, Debug, PartialEq, Eq)]
pub struct DetailedRefusal {
    pub refusal: Refusal,
    pub detail: usize,
}

impl Refusal {
    pub fn number(self) -> u32
        ensures { result ≡ refusal_number self }
    {
        match self {
            Refusal::EmptyText => 1,
            Refusal::LongText => 2,
            Refusal::LongRun => 3,
            Refusal::BadCharacter => 4,
            Refusal::BadCount => 5,
            Refusal::SpareBits => 6,
            Refusal::BadHeader => 7,
            Refusal::NotPermitted => 8,
            Refusal::ShortBody => 9,
            Refusal::NotJoinable => 10,
            Refusal::Not64Bits => 11,
            Refusal::MainTypeTwice => 12,
            Refusal::LacksDataOrInstance => 13,
            Refusal::SubtypesDiffer => 14,
            Refusal::AreaTooShort => 15,
            Refusal::OtherText => 16,
            Refusal::NumberTooLarge => 17,
            Refusal::NoDistance => 18,
            Refusal::BytesLeftOver => 19,
            Refusal::AlreadyOut => 20,
            Refusal::AllOut => 21,
            Refusal::NotOut => 22,
            Refusal::NotRegister => 23,
            Refusal::NotRecord => 24,
            Refusal::NumberGap => 25,
            Refusal::NumbersSpent => 26,
            Refusal::LastNumbersDiffer => 27,
            Refusal::LogTorn => 36,
            Refusal::LoansDiffer => 37,
            Refusal::Other(other) => other.number,
        }
    }

    // The refusal of a number: by its name, where it has one.
    pub fn from_number(number: u32) -> Refusal
        ensures { result ≡ refusal number }
    {
        for q in Refusal::all() {
            if q.number() == number {
                return q;
            }
        }
        Refusal::Other(OtherNumber { number })
    }

    pub fn with_detail(self, detail: usize) -> DetailedRefusal
        ensures { result ≡ with_detail detail self }
    {
        DetailedRefusal {
            refusal: self,
            detail,
        }
    }

    // Every refusal by name in the order of the table: ties the names above to those of the definitions.
    pub fn all() -> [Refusal; 29]
        ensures { result ≡ refusals }
    {
        [
            Refusal::EmptyText,
            Refusal::LongText,
            Refusal::LongRun,
            Refusal::BadCharacter,
            Refusal::BadCount,
            Refusal::SpareBits,
            Refusal::BadHeader,
            Refusal::NotPermitted,
            Refusal::ShortBody,
            Refusal::NotJoinable,
            Refusal::Not64Bits,
            Refusal::MainTypeTwice,
            Refusal::LacksDataOrInstance,
            Refusal::SubtypesDiffer,
            Refusal::AreaTooShort,
            Refusal::OtherText,
            Refusal::NumberTooLarge,
            Refusal::NoDistance,
            Refusal::BytesLeftOver,
            Refusal::AlreadyOut,
            Refusal::AllOut,
            Refusal::NotOut,
            Refusal::NotRegister,
            Refusal::NotRecord,
            Refusal::NumberGap,
            Refusal::NumbersSpent,
            Refusal::LastNumbersDiffer,
            Refusal::LogTorn,
            Refusal::LoansDiffer,
        ]
    }
}

// One that tells nothing more.
impl From<Refusal> for DetailedRefusal {
    ghost from_gives = { λ q d. d ≡ with_detail 0 q };

    fn from(refusal: Refusal) -> DetailedRefusal {
        refusal.with_detail(0)
    }
}

// Who wants no detail.
impl From<DetailedRefusal> for Refusal {
    ghost from_gives = { λ d q. q ≡ plain d };

    fn from(detailed: DetailedRefusal) -> Refusal {
        detailed.refusal
    }
}
