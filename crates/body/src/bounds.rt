// The bounds of the subject, all inclusive. A distance is in steps of 0.01 mm.

// How far a component of a shift may be from 0.
pub const SHIFT: u32 = 20_000;

// How far a component of a direction may be from 0.
pub const DIRECTION: u32 = 800_000_000;

// How many corners a body may have.
pub const MOST_CORNERS: usize = 1_024;

// How many flats a sided body may list.
pub const MOST_FLATS: usize = 20_000;

// How many ridges a sided body may list.
pub const MOST_RIDGES: usize = 1_000;
