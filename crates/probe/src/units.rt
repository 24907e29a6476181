// Single units.
ghost use Rattle.std.specs.Prelude.{◌≡◌, length};
ghost use Rattle.iscc.specs.Answer.{area_after};
ghost use Rattle.iscc.specs.Header.{header_with_numbers};
ghost use Rattle.iscc.specs.Item.{read_item, write_unit};
ghost use Rattle.iscc.specs.Representation.{written_as, outcome_as};
ghost use Rattle.probe.specs.Representation.{fields_as};
ghost use Rattle.unit.specs.Representation.{unit_read_as, unit_fields};

use crate::headers::Fields;
use iscc::main_type::MainType;
use iscc::outcome::Outcome;
use iscc::refusal::Refusal;

#[unsafe(no_mangle)]
pub extern "C" fn probe_unit_read(bytes: &[u8]) -> Fields
    ensures { result ≡ fields_as (unit_fields (unit_read_as (read_item bytes.now))) }
{
    let answer = unit::reader::read(bytes);
    match answer {
        Err(q) => crate::headers::refused(q.number()),
        Ok(u) => Fields {
            number: 0,
            main_type: u.main_type.number(),
            subtype: u.subtype,
            version: u.version,
            length_number: u.length_number,
            used: u.used,
        },
    }
}

// A number that names no main type is refused as the unit writer refuses a header (8).
fn write_by_number(
    main_type: u32,
    subtype: u32,
    version: u32,
    length_number: u32,
    body: &[u8],
    out: &mut [u8],
) -> Result<usize, Refusal>
    ensures answer { result ≡ written_as (write_unit (header_with_numbers main_type subtype version length_number) body.now (length out.old)) }
    ensures area { out.new ≡ area_after (write_unit (header_with_numbers main_type subtype version length_number) body.now (length out.old)) out.old }
{
    let main_type = MainType::try_from(main_type)?;
    unit::writer::write(main_type, subtype, version, length_number, body, out)
}

#[unsafe(no_mangle)]
pub extern "C" fn probe_unit_write(
    main_type: u32,
    subtype: u32,
    version: u32,
    length_number: u32,
    body: &[u8],
    out: &mut [u8],
) -> Outcome
    ensures answer { result ≡ outcome_as (written_as (write_unit (header_with_numbers main_type subtype version length_number) body.now (length out.old))) }
    ensures area { out.new ≡ area_after (write_unit (header_with_numbers main_type subtype version length_number) body.now (length out.old)) out.old }
{
    Outcome::from(write_by_number(main_type, subtype, version, length_number, body, out))
}
