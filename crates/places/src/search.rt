// How a search for a code ends.

// Where a search ended, as `binary_search` of a slice tells it: the place of the code, or the one where it would stand. And how many
// places were looked at.
#[derive(Clone, Copy)]
pub struct Found {
    pub place: Result<usize, usize>,
    pub looks: u32,
}
