// The rows of a capture in memory, in the sizes that the format allows.
ghost use Rattle.std.specs.Prelude.{◌≡◌, true};
ghost use Rattle.rows.specs.Sizes.{sizes};
ghost use Rattle.rows.specs.Table.{held_counts};

use crate::counts::Counts;
use crate::ridge::RidgeRow;
use crate::table::Table;
use vector::Vector;

#[derive(Clone, Copy)]
pub struct Tables {
    pub(crate) corners: Table<Vector, 32>,
    // The masks: bit k says that corner k lies in the flat.
    pub(crate) flats: Table<u32, 60>,
    pub(crate) ridges: Table<RidgeRow, 90>,
    ghost allowed: { sizes (held_counts corners flats ridges) ≡ true },
}

impl Tables {
    ghost use Rattle.rows.specs.Captures.{counts as counts_of};
    ghost use Rattle.rows.specs.Meaning.{rows_of};
    ghost use Rattle.rows.specs.Tetrahedron.{tetrahedron as tetrahedron_rows};

    // How many rows of each kind there are.
    pub fn counts(&self) -> Counts
        ensures { result ≡ counts_of (rows_of self.now) }
    {
        Counts {
            corners: self.corners.len(),
            flats: self.flats.len(),
            ridges: self.ridges.len(),
        }
    }

    // The corner rows.
    pub fn corners(&self) -> &[Vector]
        ensures { result.now ≡ (rows_of self.now).corners }
    {
        self.corners.as_slice()
    }

    // The flat rows, as masks: bit k says that corner k lies in the flat.
    pub fn flats(&self) -> &[u32]
        ensures { result.now ≡ (rows_of self.now).flats }
    {
        self.flats.as_slice()
    }

    // The ridge rows.
    pub fn ridges(&self) -> &[RidgeRow]
        ensures { result.now ≡ (rows_of self.now).ridges }
    {
        self.ridges.as_slice()
    }

    // The tetrahedron with corners (0,0,0), (0,0,4), (0,4,0), (4,0,0).
    pub fn tetrahedron() -> Tables
        ensures { rows_of result ≡ tetrahedron_rows }
    {
        let mut corners = [Vector::ZERO; 32];
        corners[1] = Vector { x: 0, y: 0, z: 4 };
        corners[2] = Vector { x: 0, y: 4, z: 0 };
        corners[3] = Vector { x: 4, y: 0, z: 0 };
        let mut flats = [0u32; 60];
        flats[0] = 0b0111;
        flats[1] = 0b1011;
        flats[2] = 0b1101;
        flats[3] = 0b1110;
        let mut ridges = [RidgeRow { low: 0, high: 1 }; 90];
        ridges[1] = RidgeRow { low: 0, high: 2 };
        ridges[2] = RidgeRow { low: 0, high: 3 };
        ridges[3] = RidgeRow { low: 1, high: 2 };
        ridges[4] = RidgeRow { low: 1, high: 3 };
        ridges[5] = RidgeRow { low: 2, high: 3 };
        Tables {
            corners: Table::first(corners, 4),
            flats: Table::first(flats, 4),
            ridges: Table::first(ridges, 6),
        }
    }
}
