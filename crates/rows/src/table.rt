// Rows of one kind in a place of fixed size: an array, and how many of its rows are used.
// No heap, so that want of memory cannot occur; and plain data that is copied, which the library's vectors of fixed capacity are not.
ghost use Rattle.std.specs.Prelude.{◌≡◌, ◌+◌, ◌*◌, ◌≤◌, length, take, ⊤};

use crate::row::Row;
use std::alloc::AllocError;

#[derive(Copy)]
pub(crate) struct Table<T, const N: usize> {
    // Before the rows, since tables within a `Result` are then cleared and copied once less.
    len: usize,
    rows: [T; N],
    ghost fits: { len ≤ N },
}

// By hand, since Clone cannot be derived for a generic struct with a ghost field.
impl<T: Copy, const N: usize> Clone for Table<T, N> {
    ghost is_clone = { λ old new. new ≡ old };

    ghost is_infallible = { λ _. ⊤ };

    fn clone(&self) -> Result<Self, AllocError> {
        Ok(*self)
    }
}

impl<T: Row, const N: usize> Table<T, N> {
    ghost use Rattle.rows.specs.Captures.{each};
    ghost use Rattle.rows.specs.Table.{held};

    // The first rows of an array.
    pub(crate) fn first(rows: [T; N], len: usize) -> Self
        requires { len ≤ N }
        ensures { held result ≡ take len rows }
    {
        Table { rows, len }
    }

    // The rows, lent for reading.
    pub(crate) fn as_slice(&self) -> &[T]
        ensures { result.now ≡ held self.now }
    {
        &self.rows[..self.len]
    }

    // How many rows there are.
    pub(crate) fn len(&self) -> usize
        ensures { result ≡ length (held self.now) }
    {
        self.len
    }

    // The rows that stand one after the other from a place of some bytes on; by number, as in `put_rows`.
    #[tactic(auto, using(crate::proofs::Reading::each_more))]
    pub(crate) fn read(bytes: &[u8], at: usize, len: usize) -> Self
        requires room { len ≤ N }
        requires inside { at + T.WIDTH * len ≤ length bytes.now }
        ensures { held result ≡ each len (λ k. T.row_at bytes.now (at + T.WIDTH * k)) }
    {
        let mut rows = [T::BLANK; N];
        for (k, row) in rows[..len].iter_mut().enumerate() {
            *row = T::read(bytes, at + T::WIDTH * k);
        }
        Table { rows, len }
    }
}
