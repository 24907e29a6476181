// A number of refusal that the table lacks.
ghost use Rattle.std.specs.Prelude.{◌≡◌, false};
ghost use Rattle.iscc.specs.NamedNumbers.{is_named};

// None of the table's numbers, so that no two refusals have the same number. It has a file of its own, since the definitions of
// refusals cite it.
#[derive(Clone, Copy, Debug, PartialEq, Eq)]
pub struct OtherNumber {
    pub number: u32,
    pub ghost other: { is_named number ≡ false },
}
