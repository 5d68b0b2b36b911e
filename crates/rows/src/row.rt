// What the rows of a capture have in common: each kind takes a fixed number of bytes.
ghost use Rattle.std.specs.Prelude.{◌≡◌, ℕ, ◌+◌, ◌≤◌, List, length, refl};
ghost use Rattle.rows.specs.Bytes.{u32_at, four_bytes, written};
ghost use Rattle.rows.specs.Fields.{corner_at, corner_bytes, ridge_at, ridge_bytes};

use crate::bytes::{low16, put, u16_at};
use crate::ridge::RidgeRow;
use vector::Vector;

pub(crate) trait Row: Copy {
    // How many bytes a row takes.
    ghost WIDTH: { ℕ };

    const WIDTH: usize;

    // What fills the places that no row uses.
    const BLANK: Self;

    // The row that stands at a place of some bytes.
    ghost row_at: { List ℕ → ℕ → Self };

    // The bytes of a row.
    ghost row_bytes: { Self → List ℕ };

    // Reads the row at a place. Bytes and a place go together here and below: the definitions of the format speak of places
    // in the whole capture, and a row that took only its own bytes would need each of them a second time.
    fn read(bytes: &[u8], at: usize) -> Self
        requires { at + WIDTH ≤ length bytes.now }
        ensures { result ≡ row_at bytes.now at };

    // Puts the row at a place of a buffer.
    fn put(self, buffer: &mut [u8], at: usize)
        requires { at + WIDTH ≤ length buffer.old }
        ensures { buffer.new ≡ written at (row_bytes self) buffer.old };

    // Every row takes so many bytes.
    ghost wide: { (row : Self) → length (row_bytes row) ≡ WIDTH };
}

// A corner: three coordinates.
impl Row for Vector {
    ghost WIDTH = { 6 };

    const WIDTH: usize = 6;

    const BLANK: Vector = Vector::ZERO;

    ghost row_at = { corner_at };

    ghost row_bytes = { corner_bytes };

    fn read(bytes: &[u8], at: usize) -> Vector {
        Vector {
            x: i64::from(u16_at(bytes, at).cast_signed()),
            y: i64::from(u16_at(bytes, at + 2).cast_signed()),
            z: i64::from(u16_at(bytes, at + 4).cast_signed()),
        }
    }

    fn put(self, buffer: &mut [u8], at: usize) {
        let [a, b] = low16(self.x).to_le_bytes();
        let [c, d] = low16(self.y).to_le_bytes();
        let [e, f] = low16(self.z).to_le_bytes();
        put(buffer, at, &[a, b, c, d, e, f]);
    }

    ghost wide = { λ _. refl };
}

// A flat: the mask of its corners.
impl Row for u32 {
    ghost WIDTH = { 4 };

    const WIDTH: usize = 4;

    const BLANK: u32 = 0;

    ghost row_at = { u32_at };

    ghost row_bytes = { four_bytes };

    fn read(bytes: &[u8], at: usize) -> u32 {
        u32::from_le_bytes([bytes[at], bytes[at + 1], bytes[at + 2], bytes[at + 3]])
    }

    fn put(self, buffer: &mut [u8], at: usize) {
        put(buffer, at, &self.to_le_bytes());
    }

    ghost wide = { λ _. refl };
}

// A ridge: the numbers of its two corners.
impl Row for RidgeRow {
    ghost WIDTH = { 2 };

    const WIDTH: usize = 2;

    const BLANK: RidgeRow = RidgeRow { low: 0, high: 0 };

    ghost row_at = { ridge_at };

    ghost row_bytes = { ridge_bytes };

    fn read(bytes: &[u8], at: usize) -> RidgeRow {
        RidgeRow {
            low: bytes[at],
            high: bytes[at + 1],
        }
    }

    fn put(self, buffer: &mut [u8], at: usize) {
        put(buffer, at, &[self.low, self.high]);
    }

    ghost wide = { λ _. refl };
}
