// Raw headers.
ghost use Rattle.std.specs.Prelude.{◌≡◌, length};
ghost use Rattle.iscc.specs.Answer.{area_after};
ghost use Rattle.iscc.specs.Header.{header_with_numbers, read_header, write_header};
ghost use Rattle.iscc.specs.Representation.{written_as, outcome_as};
ghost use Rattle.probe.specs.Representation.{fields_as};
ghost use Rattle.header.specs.Representation.{header_read_as, header_fields, no_fields};

use header::Header;
use iscc::outcome::Outcome;

// The four numbers of a header and the bytes used. A refusal has zero for every other number.
#[repr(C)]
#[derive(Clone, Copy)]
pub struct Fields {
    pub number: u32,
    pub main_type: u32,
    pub subtype: u32,
    pub version: u32,
    pub length_number: u32,
    pub used: usize,
}

// What a refusal answers.
pub(crate) fn refused(number: u32) -> Fields
    ensures { result ≡ fields_as (no_fields number) }
{
    Fields {
        number,
        main_type: 0,
        subtype: 0,
        version: 0,
        length_number: 0,
        used: 0,
    }
}

#[unsafe(no_mangle)]
pub extern "C" fn probe_header_read(bytes: &[u8]) -> Fields
    ensures { result ≡ fields_as (header_fields (header_read_as (read_header bytes.now))) }
{
    let answer = header::reader::read(bytes);
    match answer {
        Err(q) => refused(q.number()),
        Ok(raw) => {
            let h = raw.header;
            Fields {
                number: 0,
                main_type: h.main_type,
                subtype: h.subtype,
                version: h.version,
                length_number: h.length_number,
                used: raw.used,
            }
        }
    }
}

#[unsafe(no_mangle)]
pub extern "C" fn probe_header_write(
    main_type: u32,
    subtype: u32,
    version: u32,
    length_number: u32,
    out: &mut [u8],
) -> Outcome
    ensures answer { result ≡ outcome_as (written_as (write_header (header_with_numbers main_type subtype version length_number) (length out.old))) }
    ensures area { out.new ≡ area_after (write_header (header_with_numbers main_type subtype version length_number) (length out.old)) out.old }
{
    let h = Header {
        main_type,
        subtype,
        version,
        length_number,
    };
    Outcome::from(header::writer::write(h, out))
}
