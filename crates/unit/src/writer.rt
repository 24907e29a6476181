// Writes one unit to the front of a lent area.
ghost use Rattle.std.specs.Prelude.{◌≡◌, ◌+◌, ◌≤◌, ◌<◌, ◌++◌, length, take};
ghost use Rattle.std.proofs.Math.ListN as lists;
ghost use Rattle.iscc.specs.Answer.{accept, area_after};
ghost use Rattle.iscc.specs.Header.{header_bytes};
ghost use Rattle.iscc.specs.Item.{write_unit};
ghost use Rattle.iscc.specs.Representation.{written_as};
ghost use Rattle.header.specs.Representation.{header_from};
ghost use Rattle.unit.specs.Representation.{header_with};

use crate::permitted;
use header::Header;
use iscc::main_type::MainType;
use iscc::refusal::Refusal;

// Writes a header of two bytes, and the first bytes of a body behind it.
fn lay(h: Header, body: &[u8], count: usize, out: &mut [u8])
    requires { (h.main_type < 8) × (h.subtype < 8) × (h.version < 8) × (h.length_number < 8) × (count ≤ length body.now) × (2 + count ≤ length out.old) }
    ensures { out.new ≡ area_after (accept (header_bytes (header_from h) ++ take count body.now)) out.old }
{
    let _ = header::writer::write(h, out);
    out[2..2 + count].copy_from_slice(&body[..count]);
}

// Writes a unit: 8 (a composite is not a unit), then 9 (a longer body is cut), then 15.
pub fn write(
    main_type: MainType,
    subtype: u32,
    version: u32,
    length_number: u32,
    body: &[u8],
    out: &mut [u8],
) -> Result<usize, Refusal>
    ensures answer { result ≡ written_as (write_unit (header_with main_type subtype version length_number) body.now (lists.length out.old)) }
    ensures area { out.new ≡ area_after (write_unit (header_with main_type subtype version length_number) body.now (lists.length out.old)) out.old }
{
    if main_type == MainType::ISCC {
        return Err(Refusal::NotPermitted);
    }
    if !permitted::permits(main_type, subtype, version, length_number) {
        return Err(Refusal::NotPermitted);
    }
    let count = permitted::body_bytes(main_type, subtype, length_number);
    if body.len() < count {
        return Err(Refusal::ShortBody);
    }
    if out.len() < 2 + count {
        return Err(Refusal::AreaTooShort);
    }
    let h = Header {
        main_type: main_type.number(),
        subtype,
        version,
        length_number,
    };
    lay(h, body, count, out);
    Ok(2 + count)
}
