// Units joined to a composite, and a composite split into its units.
ghost use Rattle.std.specs.Prelude.{◌≡◌, length};
ghost use Rattle.iscc.specs.Answer.{area_after};
ghost use Rattle.iscc.specs.Items.{join, split};
ghost use Rattle.iscc.specs.Representation.{written_as, outcome_as};

use iscc::outcome::Outcome;

#[unsafe(no_mangle)]
pub extern "C" fn iscc_join(bytes: &[u8], out: &mut [u8]) -> Outcome
    ensures answer { result ≡ outcome_as (written_as (join bytes.now (length out.old))) }
    ensures area { out.new ≡ area_after (join bytes.now (length out.old)) out.old }
{
    Outcome::from(composite::join::join(bytes, out))
}

#[unsafe(no_mangle)]
pub extern "C" fn iscc_split(bytes: &[u8], out: &mut [u8]) -> Outcome
    ensures answer { result ≡ outcome_as (written_as (split bytes.now (length out.old))) }
    ensures area { out.new ≡ area_after (split bytes.now (length out.old)) out.old }
{
    Outcome::from(composite::split::split(bytes, out))
}
