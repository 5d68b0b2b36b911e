// A new place, and the questions on corners, flats and ridges.
ghost use Rattle.std.specs.Prelude.{◌≡◌, true};
ghost use Rattle.vector.specs.Vectors.{within};
ghost use Rattle.rows.specs.Captures.{counts as counts_of};
ghost use Rattle.rows.specs.Tetrahedron.{tetrahedron};
ghost use Rattle.rules.specs.Rules.{ridge_vector, corner as corner_at};
ghost use Rattle.solid.specs.Questions.{solid_rows, corner_told, flat_told, ridge_told};

use crate::hold::Solid;
use rows::{Counts, RidgeRow, Tables};
use vector::Vector;

impl Solid {
    // A new place holds the tetrahedron T.
    pub fn new() -> Solid
        ensures { solid_rows result ≡ tetrahedron }
    {
        Solid {
            tables: Tables::tetrahedron(),
        }
    }

    // How many corners, flats and ridges it has.
    pub fn counts(&self) -> Counts
        ensures { result ≡ counts_of (solid_rows self.now) }
    {
        self.tables.counts()
    }

    // Corner number k (a vertex).
    pub fn corner(&self, k: usize) -> Option<Vector>
        ensures { result ≡ corner_told (solid_rows self.now) k }
    {
        self.tables.corners().get(k).copied()
    }

    // Corner number k, within reach; the origin where there is none, as the definition of a ridge's vector has it. The rules
    // have the same for rows that need not be lawful, behind a test of reach that a solid does not need.
    fn near(&self, k: usize) -> Vector
        ensures value { result ≡ corner_at (solid_rows self.now).corners k }
        ensures reach { within 10000 result ≡ true }
    {
        self.corner(k).unwrap_or(Vector::ZERO)
    }

    // From the lower corner of a ridge row to the higher.
    fn along(&self, row: RidgeRow) -> Vector
        ensures { result ≡ ridge_vector (solid_rows self.now).corners row }
    {
        self.near(usize::from(row.high))
            .minus(self.near(usize::from(row.low)))
    }

    // The outward direction of flat number k (outer normal of a facet).
    pub fn flat(&self, k: usize) -> Option<Vector>
        ensures { result ≡ flat_told (solid_rows self.now) k }
    {
        rules::outward(&self.tables, k)
    }

    // The vector of ridge number k (an edge): its higher corner minus its lower.
    pub fn ridge(&self, k: usize) -> Option<Vector>
        ensures { result ≡ ridge_told (solid_rows self.now) k }
    {
        self.tables.ridges().get(k).map(|row| self.along(*row))
    }
}
