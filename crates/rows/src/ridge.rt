// A ridge (an edge): the numbers of its two corners; in order by low, then high.
#[derive(Clone, Copy, PartialEq, Eq, PartialOrd, Ord, Hash, Debug)]
pub struct RidgeRow {
    pub low: u8,
    pub high: u8,
}
