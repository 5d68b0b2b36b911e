// Reading: from the bytes of a capture to its rows.
ghost use Rattle.std.specs.Prelude.{◌≡◌, IfOk};
ghost use Rattle.rows.specs.Captures.{decoding, capture};
ghost use Rattle.rows.specs.Meaning.{meant, rows_of};

use crate::table::Table;
use crate::tables::Tables;
use crate::trailer;
use crate::trailer::Trailer;
use refusal::Refusal;

// How many bytes the longest capture has.
pub const LONGEST: usize = 622;

impl Tables {
    // The rows that a capture says; refused where its length or its trailer is not as it should be.
    pub fn decode(bytes: &[u8]) -> Result<Tables, Refusal>
        ensures answer { meant result ≡ decoding bytes.now }
        ensures again { IfOk result (λ t. capture (rows_of t) ≡ bytes.now) }
    {
        let len = bytes.len();
        if !(trailer::LEN..=LONGEST).contains(&len) {
            return Err(Refusal::Length);
        }
        let trailer = Trailer::at(bytes, len - trailer::LEN);
        let layout = trailer.layout(len).ok_or(Refusal::Layout)?;
        let counts = layout.counts;
        let at = layout.starts();
        Ok(Tables {
            corners: Table::read(bytes, at.corners, counts.corners),
            flats: Table::read(bytes, at.flats, counts.flats),
            ridges: Table::read(bytes, at.ridges, counts.ridges),
        })
    }
}
