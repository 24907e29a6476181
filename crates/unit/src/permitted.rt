// The specification, "Permitted headers and body lengths".
ghost use Rattle.std.specs.Prelude.{◌≡◌, ◌≤◌, cond};
ghost use Rattle.iscc.specs.Permitted.{is_wide, row, permits, body_bytes};
ghost use Rattle.iscc.specs.declared.main_type.Name.TheVariants.{Iscc};

use iscc::main_type::{MainType, Name};

// A wide composite's header: subtype 7 with length 0.
#[tactic(auto, unfolding(iscc::specs::Permitted::is_wide))]
pub fn is_wide(subtype: u32, length_number: u32) -> bool
    ensures { result ≡ is_wide subtype length_number }
{
    subtype == 7 && length_number == 0
}

#[tactic(auto, unfolding(iscc::specs::Permitted::row, iscc::specs::Permitted::composite_subtype, iscc::specs::Permitted::is_wide))]
// A composite's row: subtype 7 or 5 for length 0, 6 for length 4, and otherwise 0 to 4.
fn composite_row(subtype: u32, length_number: u32) -> bool
    ensures { result ≡ row Iscc subtype length_number }
{
    match length_number {
        0 => subtype == 7 || subtype == 5,
        4 => subtype == 6,
        _ => subtype <= 4 && length_number <= 7,
    }
}

// The table's rows: subtype and length number of a main type.
#[tactic(auto, unfolding(iscc::specs::Permitted::row))]
fn in_row(main_type: MainType, subtype: u32, length_number: u32) -> bool
    ensures { result ≡ row main_type subtype length_number }
{
    match main_type.name() {
        Name::Meta => subtype == 0 && length_number <= 7,
        Name::Semantic => subtype <= 4 && length_number <= 7,
        Name::Content => subtype <= 4 && length_number <= 7,
        Name::Data => subtype == 0 && length_number <= 7,
        Name::Instance => subtype == 0 && length_number <= 7,
        Name::Iscc => composite_row(subtype, length_number),
        Name::Id => subtype <= 5 && length_number <= 4,
    }
}

// Whether the table permits a header. Version is always 0.
pub(crate) fn permits(main_type: MainType, subtype: u32, version: u32, length_number: u32) -> bool
    ensures { result ≡ permits main_type subtype version length_number }
{
    version == 0 && in_row(main_type, subtype, length_number)
}

// The bytes of each body in a composite: sixteen if it is wide, else eight.
fn unit_bytes(subtype: u32, length_number: u32) -> usize
    ensures { result ≡ cond (is_wide subtype length_number) 16 8 }
{
    if is_wide(subtype, length_number) {
        16
    } else {
        8
    }
}

// The bytes of a composite's body.
fn composite_bytes(subtype: u32, length_number: u32) -> usize
    requires { length_number ≤ 7 }
    ensures { (result ≡ body_bytes Iscc subtype length_number) × (result ≤ 40) }
{
    tables::body_count(length_number as usize) * unit_bytes(subtype, length_number)
}

// The bytes of a body, by the same columns.
#[tactic(auto, unfolding(iscc::specs::Permitted::body_bytes))]
pub(crate) fn body_bytes(main_type: MainType, subtype: u32, length_number: u32) -> usize
    requires { length_number ≤ 7 }
    ensures { (result ≡ body_bytes main_type subtype length_number) × (result ≤ 40) }
{
    let n = length_number as usize;
    match main_type.name() {
        Name::Meta => (n + 1) * 4,
        Name::Semantic => (n + 1) * 4,
        Name::Content => (n + 1) * 4,
        Name::Data => (n + 1) * 4,
        Name::Instance => (n + 1) * 4,
        Name::Iscc => composite_bytes(subtype, length_number),
        Name::Id => 8 + n,
    }
}
