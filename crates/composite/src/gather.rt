// The composite of a list of units, and that of its own bytes.
ghost use Rattle.std.specs.Prelude.{◌≡◌, true, ℕ, ◌+◌, ◌*◌, ◌≤◌, ◌<◌, length, take, drop};
ghost use Rattle.iscc.specs.Permitted.{weight, composite_subtype, set_length_number, set_of, unit_count};
ghost use Rattle.iscc.specs.Meaning.{Meaning};
ghost use Rattle.composite.specs.Bodies.{filled_bodies, parts, type_at, body_offset, set_of_offsets, summary_subtype, Makes, composite_as};
ghost use Rattle.units.specs.Summary.{has_offset};

use crate::bodies::Composite;
use iscc::main_type::MainType;
use units::summary::Summary;

// What a main type's unit adds to the length number.
fn weight_of(full: usize, list: &Summary, main_type: MainType) -> usize
    ensures { (result ≡ weight full (has_offset list.now.offsets main_type)) × (result ≤ full) }
{
    if list.offset_of(main_type).is_some() {
        return full;
    }
    0
}

// The length number of the set of units that have a body.
fn set_length_number(list: &Summary) -> usize
    ensures { (result ≡ set_length_number (set_of_offsets list.now.offsets)) × (result ≤ 7) }
{
    weight_of(4, list, MainType::META)
        + weight_of(2, list, MainType::SEMANTIC)
        + weight_of(1, list, MainType::CONTENT)
}

// 5 with neither SEMANTIC nor CONTENT, 6 with META alone, and otherwise the subtype that they share.
#[tactic(auto, unfolding(crate::specs::Bodies::summary_subtype))]
fn subtype_of(list: &Summary) -> u32
    ensures { result ≡ summary_subtype list.now }
{
    match list.subtype {
        Some(subtype) => subtype,
        None => {
            if list.offset_of(MainType::META).is_some() {
                return 6;
            }
            5
        }
    }
}

// The eight bytes at an offset.
fn eight_bytes(bytes: &[u8], offset: usize) -> [u8; 8]
    requires { offset + 8 ≤ length bytes.now }
    ensures { result ≡ take 8 (drop offset bytes.now) }
{
    let mut body = [0; 8];
    body.copy_from_slice(&bytes[offset..offset + 8]);
    body
}

// So many bodies, each of the eight bytes at its offset, then zeros.
fn bodies_at<F: Fn(usize) -> usize>(bytes: &[u8], count: usize, offset_of: F) -> [[u8; 8]; 5]
    requires few { count ≤ 5 }
    requires callable { (i : ℕ) → i < count → F.pre offset_of i }
    requires room { (i at : ℕ) → i < count → F.post offset_of i at → at + 8 ≤ length bytes.now }
    ensures { (f : ℕ → ℕ) → ((i at : ℕ) → i < count → F.post offset_of i at → at ≡ f i) → result ≡ filled_bodies (λ i. take 8 (drop (f i) bytes.now)) count 5 }
{
    let mut found = [[0u8; 8]; 5];
    for i in 0..count {
        found[i] = eight_bytes(bytes, offset_of(i));
    }
    found
}

// The composite that a list makes.
pub(crate) fn from_list(bytes: &[u8], list: &Summary) -> Composite
    requires { (m : Meaning) × Makes bytes.now list.now m }
    ensures { (m : Meaning) → Makes bytes.now list.now m → result ≡ composite_as m }
{
    let length_number = set_length_number(list);
    let set = tables::unit_set(length_number);
    let units = set.units;
    let found = bodies_at(
        bytes,
        usize::from(set.count),
        |i: usize|
            requires { i < 5 }
            ensures { result ≡ body_offset list.entry.now.offsets units i }
        { list.offset_of(units[i]).unwrap_or(0) },
    );
    Composite {
        length_number,
        subtype: subtype_of(list),
        bodies: found,
    }
}

// The composite whose own bytes these are, by the subtype and the length number of its header.
pub(crate) fn from_code(bytes: &[u8], subtype: u32, length_number: usize) -> Composite
    requires few { length_number ≤ 7 }
    requires permitted { composite_subtype length_number subtype ≡ true }
    requires room { 2 + unit_count (set_of length_number) * 8 ≤ length bytes.now }
    ensures { result ≡ parts length_number subtype (filled_bodies (λ i. take 8 (drop (2 + i * 8) bytes.now)) (unit_count (set_of length_number)) 5) }
{
    let found = bodies_at(bytes, tables::body_count(length_number), |i| 2 + i * 8);
    Composite {
        length_number,
        subtype,
        bodies: found,
    }
}
