// What the calls answer beside a record number or a refusal. Their numbers by the specification: `changed_number`, `changed_record` and
// `holder_number` of specs/Representation.antt.
use iscc::refusal::Refusal;

// Who has a code, or why that is not told. The looks are told where the code is out and where it is not, and are 0 with every other refusal.
#[derive(Clone, Copy)]
pub struct Asked {
    pub holder: Result<u32, Refusal>,
    pub looks: u32,
}

// How many codes are out, in all and by main type.
#[derive(Clone, Copy)]
pub struct Counts {
    pub out: u32,
    pub meta: u32,
    pub semantic: u32,
    pub content: u32,
    pub data: u32,
    pub instance: u32,
    pub iscc: u32,
    pub id: u32,
}
