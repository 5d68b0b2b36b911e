// A number for each table: how many corners, flats and ridges there are, or in bytes where their first rows lie.
ghost use Rattle.std.specs.Prelude.{◌≡◌};
ghost use Rattle.rows.specs.Sizes.{sizes};

#[derive(Clone, Copy, PartialEq, Eq, Hash, Debug)]
pub struct Counts {
    pub corners: usize,
    pub flats: usize,
    pub ridges: usize,
}

impl Counts {
    // Whether the format allows a capture of this size.
    pub(crate) fn are_allowed(self) -> bool
        ensures { result ≡ sizes self }
    {
        (4..=32).contains(&self.corners)
            && (4..=60).contains(&self.flats)
            && (6..=90).contains(&self.ridges)
    }
}
