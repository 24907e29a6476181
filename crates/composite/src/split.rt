// Splits a composite into its units.
ghost use Rattle.std.specs.Prelude.{◌≡◌, length};
ghost use Rattle.iscc.specs.Answer.{area_after};
ghost use Rattle.iscc.specs.Item.{read_one};
ghost use Rattle.iscc.specs.Items as items;
ghost use Rattle.iscc.specs.Representation.{written_as};
ghost use Rattle.unit.specs.Representation.{one_read_as};

use crate::{gather, wide};
use iscc::main_type::MainType;
use iscc::refusal::Refusal;
use unit::reader::Unit;
use unit::{one, permitted};

// Splits the one item of the bytes: 8 for anything but a composite, then 15.
fn split_item(bytes: &[u8], u: Unit, out: &mut [u8]) -> Result<usize, Refusal>
    requires { one_read_as bytes.now (read_one bytes.now) ≡ Ok u }
    ensures answer { result ≡ written_as (items.split bytes.now (length out.old)) }
    ensures area { out.new ≡ area_after (items.split bytes.now (length out.old)) out.old }
{
    if u.main_type != MainType::ISCC {
        return Err(Refusal::NotPermitted);
    }
    if permitted::is_wide(u.subtype, u.length_number) {
        return wide::write_units(bytes, out);
    }
    gather::from_code(bytes, u.subtype, u.length_number as usize).write_units(out)
}

// Tests 7, 8, 9, 19, then 8 for anything but a composite, then 15. The units stand end to end in the composite's order.
pub fn split(bytes: &[u8], out: &mut [u8]) -> Result<usize, Refusal>
    ensures answer { result ≡ written_as (items.split bytes.now (length out.old)) }
    ensures area { out.new ≡ area_after (items.split bytes.now (length out.old)) out.old }
{
    let u = one::read(bytes)?;
    split_item(bytes, u, out)
}
