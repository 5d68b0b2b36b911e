// The rules 3 to 8, one by one and in their order.
ghost use Rattle.std.specs.Prelude.{◌≡◌};
ghost use Rattle.refusal.specs.Numbers.{told};
ghost use Rattle.rows.specs.Meaning.{rows_of};
ghost use Rattle.rules.specs.Rules.{checking, direction};

use crate::corners::Corners;
use crate::masks::masks_fit;
use crate::ridges::{corners_tied, ridges_fit};
use refusal::Refusal;
use rows::Tables;
use vector::Vector;

// Whether the rows keep rules 3 to 8, each over the whole capture; the first that is broken decides.
pub fn check(tables: &Tables) -> Result<(), Refusal>
    ensures { told result ≡ checking (rows_of tables.now) }
{
    let flats = tables.flats();
    let corners = Corners::rising(tables.corners()).ok_or(Refusal::CornerRows)?;
    if !masks_fit(corners.len(), flats) {
        return Err(Refusal::Masks);
    }
    if !corners.are_flat(flats) {
        return Err(Refusal::Flats);
    }
    if !corners.are_enclosed(flats) {
        return Err(Refusal::MissingFlat);
    }
    if !corners_tied(corners.len(), flats) {
        return Err(Refusal::LooseCorner);
    }
    if !ridges_fit(flats, tables.ridges()) {
        return Err(Refusal::RidgeRows);
    }
    Ok(())
}

// The outward direction of flat k, where there is one and all corners are within reach.
pub fn outward(tables: &Tables, k: usize) -> Option<Vector>
    ensures { result ≡ direction (rows_of tables.now) k }
{
    let mask = *tables.flats().get(k)?;
    let corners = Corners::reached(tables.corners())?;
    Some(corners.outward(mask).along)
}
