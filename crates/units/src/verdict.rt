// The tests of a list of two or more: 10, 11, 12, 13, 14, each over the whole list before the next.
ghost use Rattle.std.specs.Prelude.{◌≡◌};
ghost use Rattle.units.specs.Verdict.{lacks, decided};

use crate::summary::Summary;
use iscc::main_type::MainType;
use iscc::refusal::{DetailedRefusal, Refusal};

fn missing(main_type: MainType) -> Result<(), DetailedRefusal>
    ensures { result ≡ lacks main_type }
{
    Err(Refusal::LacksDataOrInstance.with_detail(main_type.number() as usize))
}

// The list makes a composite; or why not, and where: an item's index, or for 13 the number of the main type that is missing.
#[tactic(auto, unfolding(crate::specs::Verdict::decided))]
pub fn decide(list: &Summary) -> Result<(), DetailedRefusal>
    ensures { result ≡ decided list.now }
{
    if let Some(k) = list.not_joinable {
        return Err(Refusal::NotJoinable.with_detail(k));
    }
    if let Some(k) = list.not_64_bits {
        return Err(Refusal::Not64Bits.with_detail(k));
    }
    if let Some(k) = list.repeated {
        return Err(Refusal::MainTypeTwice.with_detail(k));
    }
    if list.offset_of(MainType::DATA).is_none() {
        return missing(MainType::DATA);
    }
    if list.offset_of(MainType::INSTANCE).is_none() {
        return missing(MainType::INSTANCE);
    }
    if let Some(k) = list.clash {
        return Err(Refusal::SubtypesDiffer.with_detail(k));
    }
    Ok(())
}
