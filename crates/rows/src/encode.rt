// Saving: from rows to the bytes of their capture.
ghost use Rattle.std.specs.Prelude.{◌≡◌, ◌+◌, ◌*◌, ◌≤◌, true, length};
ghost use Rattle.std.specs.List.{flat_map};
ghost use Rattle.refusal.specs.Numbers.{told};
ghost use Rattle.rows.specs.Bytes.{written};
ghost use Rattle.rows.specs.Sizes.{sizes};
ghost use Rattle.rows.specs.Captures.{saving, saved, counts as counts_of};
ghost use Rattle.rows.specs.Meaning.{rows_of};
ghost use Rattle.rows.specs.Back.{RowsComeBack};

use crate::bytes::put;
use crate::layout::Layout;
use crate::row::Row;
use crate::tables::Tables;
use crate::trailer;
use refusal::Refusal;

// Rows one after the other, from a place on; by number, since a row's place follows from it.
fn put_rows<R: Row>(buffer: &mut [u8], at: usize, rows: &[R])
    requires { at + R.WIDTH * length rows.now ≤ length buffer.old }
    ensures { buffer.new ≡ written at (flat_map R.row_bytes rows.now) buffer.old }
{
    for (k, row) in rows.iter().enumerate() {
        row.put(buffer, at + R::WIDTH * k);
    }
}

impl Tables {
    // Writes the capture from the buffer's start on, and says how long it is; refused where the buffer is too short.
    pub fn encode(&self, buffer: &mut [u8]) -> Result<usize, Refusal>
        ensures answer { told result ≡ saving (rows_of self.now) buffer.old }
        ensures bytes { buffer.new ≡ saved (rows_of self.now) buffer.old }
        ensures allowed { sizes (counts_of (rows_of self.now)) ≡ true }
    {
        let layout = Layout {
            counts: self.counts(),
        };
        let at = layout.starts();
        let trailer_at = layout.distances().corners;
        let len = trailer_at + trailer::LEN;
        if buffer.len() < len {
            return Err(Refusal::NoRoom);
        }
        put_rows(buffer, at.corners, self.corners());
        put_rows(buffer, at.flats, self.flats());
        put_rows(buffer, at.ridges, self.ridges());
        put(buffer, trailer_at, &layout.trailer_bytes());
        Ok(len)
    }
}

// A capture says the rows that it was saved from.
#[tactic(auto, using(crate::proofs::Back::rows_come_back))]
pub fn rows_come_back()
    ensures { RowsComeBack }
{}
