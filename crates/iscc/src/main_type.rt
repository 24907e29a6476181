// Main types by name.
ghost use Rattle.std.specs.Prelude.{◌≡◌};
ghost use Rattle.iscc.specs.Items.{takes_subtype};
ghost use Rattle.iscc.specs.Permitted.{main_type_of, main_types, number};
ghost use Rattle.iscc.specs.Representation.{result_of};

use crate::refusal::Refusal;
use std::marker::Model;

// The name of a main type, with its number in a header. The definitions in specs/ speak of this very type.
#[derive(Clone, Copy, Debug, PartialEq, Eq)]
pub enum Name {
    Meta = 0,
    Semantic = 1,
    Content = 2,
    Data = 3,
    Instance = 4,
    Iscc = 5,
    Id = 6,
}

// A main type of the specification. Its name is private, so outside this crate one comes from the constants, or from a number that the
// table has. A contract sees it as its name.
#[derive(Clone, Copy, Debug, PartialEq, Eq)]
pub struct MainType {
    name: Name,
}

impl Model for MainType {
    ghost use Rattle.iscc.specs.declared.main_type.Name.{Name};

    ghost Value = { Name };

    ghost view = { λ m. m.name };

    ghost inverse = { λ n. record { name = n } };
}

impl MainType {
    pub const META: MainType = MainType { name: Name::Meta };

    pub const SEMANTIC: MainType = MainType {
        name: Name::Semantic,
    };

    pub const CONTENT: MainType = MainType {
        name: Name::Content,
    };

    pub const DATA: MainType = MainType { name: Name::Data };

    pub const INSTANCE: MainType = MainType {
        name: Name::Instance,
    };

    pub const ISCC: MainType = MainType { name: Name::Iscc };

    pub const ID: MainType = MainType { name: Name::Id };

    // Every main type in the order of the table: ties the names above to those of the definitions.
    pub fn all() -> [MainType; 7]
        ensures { result ≡ main_types }
    {
        [
            MainType::META,
            MainType::SEMANTIC,
            MainType::CONTENT,
            MainType::DATA,
            MainType::INSTANCE,
            MainType::ISCC,
            MainType::ID,
        ]
    }

    // Its name, for a `match`.
    pub fn name(self) -> Name
        ensures { result ≡ self }
    {
        self.name
    }

    pub fn number(self) -> u32
        ensures { result ≡ number self }
    {
        self.name as u32
    }

    // SEMANTIC and CONTENT have subtypes of their own.
    pub fn takes_subtype(self) -> bool
        ensures { result ≡ takes_subtype self }
    {
        matches!(self.name, Name::Semantic | Name::Content)
    }
}

// The main type of a number: 7 and above are refused (8).
impl TryFrom<u32> for MainType {
    type Error = Refusal;

    ghost try_from_gives = { λ n r. r ≡ result_of (main_type_of n) };

    #[tactic(auto, unfolding(crate::specs::Permitted::main_type_of, crate::specs::Permitted::type_of, crate::specs::Representation::result_of))]
    fn try_from(number: u32) -> Result<MainType, Refusal> {
        match number {
            0 => Ok(MainType::META),
            1 => Ok(MainType::SEMANTIC),
            2 => Ok(MainType::CONTENT),
            3 => Ok(MainType::DATA),
            4 => Ok(MainType::INSTANCE),
            5 => Ok(MainType::ISCC),
            6 => Ok(MainType::ID),
            _ => Err(Refusal::NotPermitted),
        }
    }
}
