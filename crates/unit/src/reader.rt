// Reads one unit or composite at the front of bytes.
ghost use Rattle.std.specs.Prelude.{◌≡◌};
ghost use Rattle.iscc.specs.Header.{read_header};
ghost use Rattle.iscc.specs.Item.{read_item};
ghost use Rattle.header.specs.Representation.{header_read_as};
ghost use Rattle.unit.specs.Representation.{unit_read_as, unit_fields, item_fields_of};

use crate::permitted;
use header::reader::RawHeader;
use iscc::main_type::MainType;
use iscc::refusal::Refusal;

// An item that was read. Its body is the bytes from `start` to `used`.
#[derive(Clone, Copy)]
pub struct Unit {
    pub main_type: MainType,
    pub subtype: u32,
    pub version: u32,
    pub length_number: u32,
    pub start: usize,
    pub used: usize,
}

// The item of a header that stands at the front of the bytes: 8, then 9.
fn item_of(bytes: &[u8], raw: RawHeader) -> Result<Unit, Refusal>
    requires { header_read_as (read_header bytes.now) ≡ Ok raw }
    ensures { result ≡ unit_read_as (read_item bytes.now) }
{
    let h = raw.header;
    let main_type = MainType::try_from(h.main_type)?;
    if !permitted::permits(main_type, h.subtype, h.version, h.length_number) {
        return Err(Refusal::NotPermitted);
    }
    let start = raw.used;
    let used = start + permitted::body_bytes(main_type, h.subtype, h.length_number);
    if bytes.len() < used {
        return Err(Refusal::ShortBody);
    }
    Ok(Unit {
        main_type,
        subtype: h.subtype,
        version: h.version,
        length_number: h.length_number,
        start,
        used,
    })
}

// One unit or composite at the front of the bytes: 7, 8, 9. What follows is not its concern.
pub fn read(bytes: &[u8]) -> Result<Unit, Refusal>
    ensures answer { result ≡ unit_read_as (read_item bytes.now) }
    ensures fields { unit_fields result ≡ item_fields_of (read_item bytes.now) }
{
    let raw = header::reader::read(bytes)?;
    item_of(bytes, raw)
}
