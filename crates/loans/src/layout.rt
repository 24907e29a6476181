// The layout of register and log. The register: counts, behind them 256 places of 48 bytes, and the last number.

// The counts, in bytes: codes out, then codes out for each main type, two bytes each.
pub const COUNTS_LENGTH: usize = 16;

// How many places there are.
pub const PLACES: usize = 256;

// A place, in bytes.
pub const PLACE_LENGTH: usize = 48;

// All places, in bytes.
pub const PLACES_LENGTH: usize = 12288;

// The offset of the last number, behind the places.
pub const LAST_NUMBER_OFFSET: usize = 12304;

// The whole register, in bytes.
pub const REGISTER_LENGTH: usize = 12308;

// The code's offset in a place, behind its length.
pub const CODE_OFFSET: usize = 1;

// The borrower's offset in a place, behind the code's 42 bytes and the zero byte.
pub const BORROWER_OFFSET: usize = 44;

// The log's layout: the tag of an issue and of a return.
pub const ISSUE_TAG: u8 = 3;

pub const RETURN_TAG: u8 = 4;

// What stands before a record's body: the tag, and two bytes of length.
pub const HEAD_LENGTH: usize = 3;

// The record number, at the head of every body; the register keeps the last one in as many bytes.
pub const NUMBER_LENGTH: usize = 4;

// The largest record number.
pub const LAST_NUMBER: u32 = 4294967295;

// The borrower in an issue's body, behind the number and before the code.
pub const BORROWER_LENGTH: usize = 4;
