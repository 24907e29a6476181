// The two constant tables of the specification: the base32 alphabet and the eight sets of units in a composite.
#![tactic(auto)]

ghost use Rattle.std.specs.Prelude.{◌≡◌, ◌≤◌, ◌<◌};
ghost use Rattle.iscc.specs.Base32.{base32};
ghost use Rattle.iscc.specs.Permitted.{set_of, unit_count};
ghost use Rattle.tables.specs.Representation.{unit_set_as};

use iscc::main_type::MainType;

const ALPHABET: [u8; 32] = *b"ABCDEFGHIJKLMNOPQRSTUVWXYZ234567";

// The character of each digit.
#[tactic(auto, unfolding(iscc::specs::Base32::base32))]
pub fn alphabet() -> [u8; 32]
    ensures { result ≡ base32.chars }
{
    ALPHABET
}

// The main types of the units in a composite, in their order, then ID as filling; and how many bodies it has.
#[derive(Clone, Copy)]
pub struct UnitSet {
    pub units: [MainType; 5],
    pub count: u8,
}

const META: MainType = MainType::META;

const SEMANTIC: MainType = MainType::SEMANTIC;

const CONTENT: MainType = MainType::CONTENT;

const DATA: MainType = MainType::DATA;

const INSTANCE: MainType = MainType::INSTANCE;

const FILL: MainType = MainType::ID;

// By the composite's length number: 4 if META is in, plus 2 if SEMANTIC is in, plus 1 if CONTENT is in.
const SETS: [UnitSet; 8] = [
    UnitSet {
        units: [DATA, INSTANCE, FILL, FILL, FILL],
        count: 2,
    },
    UnitSet {
        units: [CONTENT, DATA, INSTANCE, FILL, FILL],
        count: 3,
    },
    UnitSet {
        units: [SEMANTIC, DATA, INSTANCE, FILL, FILL],
        count: 3,
    },
    UnitSet {
        units: [SEMANTIC, CONTENT, DATA, INSTANCE, FILL],
        count: 4,
    },
    UnitSet {
        units: [META, DATA, INSTANCE, FILL, FILL],
        count: 3,
    },
    UnitSet {
        units: [META, CONTENT, DATA, INSTANCE, FILL],
        count: 4,
    },
    UnitSet {
        units: [META, SEMANTIC, DATA, INSTANCE, FILL],
        count: 4,
    },
    UnitSet {
        units: [META, SEMANTIC, CONTENT, DATA, INSTANCE],
        count: 5,
    },
];

// The row of a length number; that of 0 where the table has none.
#[tactic(auto, using(iscc::proofs::Permitted::set_past))]
fn row_of(length_number: usize) -> usize
    ensures { (result < 8) × (set_of result ≡ set_of length_number) }
{
    if length_number < 8 { length_number } else { 0 }
}

// The units of a composite by its length number; of a number that is none, those of 0.
pub fn unit_set(length_number: usize) -> UnitSet
    ensures { (result ≡ unit_set_as (set_of length_number)) × (result.count ≤ 5) }
{
    let row = row_of(length_number);
    SETS[row]
}

// The table's count alone, computed: DATA and INSTANCE, and one for each number that the length number is the sum of. The compiler
// builds a table anew where an entry of it is read, which costs more than the rest of a reader's work on a header.
pub fn body_count(length_number: usize) -> usize
    ensures { (result ≡ unit_count (set_of length_number)) × (result ≤ 5) }
{
    let row = row_of(length_number);
    row / 4 + row / 2 % 2 + row % 2 + 2
}
