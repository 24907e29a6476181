// The rows of the varnibble table.
ghost use Rattle.std.specs.Prelude.{◌≡◌, ◌+◌, ◌≤◌, ◌<◌, IfSome};
ghost use Rattle.iscc.specs.Varnibble.{row_of};
ghost use Rattle.header.specs.Representation.{row_as, row_for, RowBounds};

// A row: its nibbles, its first number, how many numbers it has, its prefix in front of zero data bits, and 16 to the power of its nibbles.
#[derive(Clone, Copy)]
pub struct Row {
    pub width: usize,
    pub first: u32,
    pub count: u32,
    pub prefix: u32,
    pub size: u64,
}

const ONE: Row = Row {
    width: 1,
    first: 0,
    count: 8,
    prefix: 0,
    size: 16,
};

const TWO: Row = Row {
    width: 2,
    first: 8,
    count: 64,
    prefix: 0x80,
    size: 256,
};

const THREE: Row = Row {
    width: 3,
    first: 72,
    count: 512,
    prefix: 0xC00,
    size: 4096,
};

const FOUR: Row = Row {
    width: 4,
    first: 584,
    count: 4096,
    prefix: 0xE000,
    size: 65536,
};

// The row of a first nibble: 1111 has none.
pub(crate) fn row_by(first: u32) -> Option<Row>
    ensures row { result ≡ row_for first }
    ensures bounds { IfSome result RowBounds }
{
    match first {
        0b0000..=0b0111 => Some(ONE),
        0b1000..=0b1011 => Some(TWO),
        0b1100..=0b1101 => Some(THREE),
        0b1110 => Some(FOUR),
        _ => None,
    }
}

// The row of a number.
pub(crate) fn row_of(n: u32) -> Row
    requires { n ≤ 4679 }
    ensures row { result ≡ row_as (row_of n) }
    ensures bounds { RowBounds result }
    ensures begins { result.first ≤ n }
    ensures ends { n < result.first + result.count }
{
    match n {
        0..=7 => ONE,
        8..=71 => TWO,
        72..=583 => THREE,
        _ => FOUR,
    }
}
