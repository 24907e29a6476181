// Writes a composite: as its own bytes, or as its units end to end.
ghost use Rattle.std.specs.Prelude.{◌≡◌, true, cond, ◌++◌, ◌+◌, ◌*◌, ◌≤◌, length, take, drop};
ghost use Rattle.iscc.specs.Answer.{accept, area_after, into};
ghost use Rattle.iscc.specs.Items.{takes_subtype};
ghost use Rattle.iscc.specs.Permitted.{set_of, unit_count};
ghost use Rattle.iscc.specs.Item.{item_bytes};
ghost use Rattle.iscc.specs.Representation.{written_as};
ghost use Rattle.tables.specs.Representation.{unit_set_as};
ghost use Rattle.composite.specs.Bodies.{laid};
ghost use Rattle.composite.specs.Code.{composite_bytes, InComposite, unit_of, unit_at, split_into};

use crate::bodies::Composite;
use iscc::main_type::MainType;
use iscc::refusal::Refusal;
use tables::UnitSet;

// SEMANTIC and CONTENT take the composite's subtype, the other units have 0.
fn unit_subtype(main_type: MainType, subtype: u32) -> u32
    ensures { result ≡ cond (takes_subtype main_type) subtype 0 }
{
    if main_type.takes_subtype() {
        return subtype;
    }
    0
}

// A unit of 64 bits, at an offset of an area.
fn put_unit(main_type: MainType, subtype: u32, body: [u8; 8], offset: usize, out: &mut [u8])
    requires { InComposite main_type × (takes_subtype main_type ≡ true → subtype ≤ 4) × (offset + 10 ≤ length out.old) }
    ensures { out.new ≡ take offset out.old ++ (item_bytes (unit_of main_type subtype body) ++ drop (offset + 10) out.old) }
{
    let own = unit_subtype(main_type, subtype);
    let _ = unit::writer::write(main_type, own, 0, 1, &body, &mut out[offset..]);
}

impl Composite {
    // Its own bytes, at the front of an area: a header of two bytes, a nibble a number, and its bodies.
    fn put_code(self, count: usize, out: &mut [u8])
        requires { (count ≡ unit_count (set_of self.length_number)) × (2 + count * 8 ≤ length out.old) }
        ensures { out.new ≡ area_after (accept (composite_bytes self)) out.old }
    {
        out[0] = (MainType::ISCC.number() * 16 + self.subtype) as u8;
        out[1] = self.length_number as u8;
        out[2..2 + count * 8].copy_from_slice(self.bodies[..count].as_flattened());
    }

    // Writes its own bytes, or 15.
    pub(crate) fn write(self, out: &mut [u8]) -> Result<usize, Refusal>
        ensures answer { result ≡ written_as (into (length out.old) (accept (composite_bytes self))) }
        ensures area { out.new ≡ area_after (into (length out.old) (accept (composite_bytes self))) out.old }
    {
        let count = tables::body_count(self.length_number);
        let size = 2 + count * 8;
        if out.len() < size {
            return Err(Refusal::AreaTooShort);
        }
        self.put_code(count, out);
        Ok(size)
    }

    // Its units end to end, at the front of an area.
    fn put_units(self, set: UnitSet, out: &mut [u8])
        requires { (set ≡ unit_set_as (set_of self.length_number)) × (set.count ≤ 5) × (set.count * 10 ≤ length out.old) }
        ensures { out.new ≡ laid (λ i. item_bytes (unit_at self i)) set.count ++ drop (set.count * 10) out.old }
    {
        for i in 0..usize::from(set.count) {
            put_unit(set.units[i], self.subtype, self.bodies[i], i * 10, out);
        }
    }

    // Writes its units end to end, or 15.
    pub(crate) fn write_units(self, out: &mut [u8]) -> Result<usize, Refusal>
        ensures answer { result ≡ written_as (into (length out.old) (accept (split_into self))) }
        ensures area { out.new ≡ area_after (into (length out.old) (accept (split_into self))) out.old }
    {
        let set = tables::unit_set(self.length_number);
        let size = usize::from(set.count) * 10;
        if out.len() < size {
            return Err(Refusal::AreaTooShort);
        }
        self.put_units(set, out);
        Ok(size)
    }
}
