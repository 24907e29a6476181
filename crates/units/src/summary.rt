// What one pass over a list keeps of the items read so far. No body is copied.
ghost use Rattle.std.specs.Prelude.{◌≡◌, ◌<◌};
ghost use Rattle.units.specs.Summary.{empty_summary, advanced, is_joinable, offset_in, any_subtyped, shares, subtype_after, added};

use iscc::main_type::{MainType, Name};

#[derive(Clone, Copy)]
pub struct Summary {
    pub count: usize,
    // the index of the first composite or ID
    pub not_joinable: Option<usize>,
    // of the first body that is not of 64 bits
    pub not_64_bits: Option<usize>,
    // of the first item whose main type an item before it has
    pub repeated: Option<usize>,
    // of the first SEMANTIC or CONTENT unit whose subtype differs from that of one before it
    pub clash: Option<usize>,
    // of the first SEMANTIC or CONTENT unit
    pub subtype: Option<u32>,
    // by main type: where the body of the first such item stands in the input
    pub offsets: [Option<usize>; 7],
}

fn is_joinable(main_type: MainType) -> bool
    ensures { result ≡ is_joinable main_type }
{
    match main_type.name() {
        Name::Iscc => false,
        Name::Id => false,
        _ => true,
    }
}

// The index of the first item that breaks a rule, one item later.
#[tactic(auto, unfolding(crate::specs::Summary::advanced))]
fn advance(first: Option<usize>, count: usize, holds: bool) -> Option<usize>
    ensures { result ≡ advanced first count holds }
{
    match first {
        Some(k) => Some(k),
        None => {
            if holds {
                return None;
            }
            Some(count)
        }
    }
}

impl Summary {
    // Of no items.
    pub(crate) fn empty() -> Self
        ensures { result ≡ empty_summary }
    {
        Summary {
            count: 0,
            not_joinable: None,
            not_64_bits: None,
            repeated: None,
            clash: None,
            subtype: None,
            offsets: [None; 7],
        }
    }

    // Where the body of the first item of a main type stands in the input.
    pub fn offset_of(&self, main_type: MainType) -> Option<usize>
        ensures { result ≡ offset_in self.now.offsets main_type }
    {
        self.offsets[main_type.number() as usize]
    }

    // Whether a unit has the subtype of the SEMANTIC and CONTENT units so far, if it is one.
    #[tactic(auto, unfolding(crate::specs::Summary::shares))]
    fn shares(&self, main_type: MainType, subtype: u32) -> bool
        ensures { result ≡ shares self.now.subtype main_type subtype }
    {
        match self.subtype {
            Some(first) => !main_type.takes_subtype() || first == subtype,
            None => true,
        }
    }

    // The subtype of the first SEMANTIC or CONTENT unit, one item later.
    #[tactic(auto, unfolding(crate::specs::Summary::subtype_after))]
    fn subtype_after(&self, main_type: MainType, subtype: u32) -> Option<u32>
        ensures { result ≡ subtype_after self.now.subtype main_type subtype }
    {
        match self.subtype {
            Some(first) => Some(first),
            None => {
                if main_type.takes_subtype() {
                    return Some(subtype);
                }
                None
            }
        }
    }

    // One item later: an item of this main type and subtype, whose body is of `size` bytes and stands at `offset` in the input.
    #[tactic(auto, unfolding(crate::specs::Summary::added, crate::specs::Summary::with_offset))]
    pub(crate) fn add(&mut self, main_type: MainType, subtype: u32, size: usize, offset: usize)
        requires { self.old.count < 18446744073709551615 }
        ensures { self.new ≡ added self.old main_type subtype size offset }
    {
        let number = main_type.number() as usize;
        let is_first = self.offset_of(main_type).is_none();
        self.not_joinable = advance(self.not_joinable, self.count, is_joinable(main_type));
        self.not_64_bits = advance(self.not_64_bits, self.count, size == 8);
        self.repeated = advance(self.repeated, self.count, is_first);
        self.clash = advance(self.clash, self.count, self.shares(main_type, subtype));
        self.subtype = self.subtype_after(main_type, subtype);
        if is_first {
            self.offsets[number] = Some(offset);
        }
        self.count += 1;
    }

    // Whether the list has a SEMANTIC or a CONTENT unit.
    pub fn any_subtyped(&self) -> bool
        ensures { result ≡ any_subtyped self.now.offsets }
    {
        self.offset_of(MainType::SEMANTIC).is_some() || self.offset_of(MainType::CONTENT).is_some()
    }
}
