// Masks: bit k of a flat's mask says that corner k lies in it. Rule 4: they fit the corners and rise strictly.
ghost use Rattle.std.specs.Prelude.{◌≡◌, ◌≤◌};
ghost use Rattle.std.specs.List.{list_all};
ghost use Rattle.rules.specs.Masks.{lies as lies_in, lowest as lowest_in, next as next_in, holds as holds_ridge, share_two, meet_in};
ghost use Rattle.rules.specs.Rules.{mask_fits, masks_fit};

use crate::rising::rise;
use rows::RidgeRow;

// Whether corner k lies in the flat.
pub(crate) fn lies(k: usize, mask: u32) -> bool
    ensures { result ≡ lies_in k mask }
{
    k < 32 && (mask >> k) & 1 == 1
}

// The lowest corner of the flat that is not below `from`.
fn lowest(from: usize, mask: u32) -> Option<usize>
    ensures { result ≡ lowest_in from mask }
{
    (from..32).find(|k| lies(*k, mask))
}

// That corner, or the first number that is no corner's and not below `from`. A number and no option, as the rules have it:
// they take the origin for the place of such a number, and an option would need that default at each of three steps.
pub(crate) fn next(from: usize, mask: u32) -> usize
    ensures { result ≡ next_in from mask }
{
    lowest(from, mask).unwrap_or(from.max(32))
}

// Whether both corners of the ridge lie in the flat.
pub(crate) fn holds(mask: u32, ridge: RidgeRow) -> bool
    ensures { result ≡ holds_ridge mask ridge }
{
    lies(usize::from(ridge.low), mask) && lies(usize::from(ridge.high), mask)
}

// Whether two flats share exactly two corners.
pub(crate) fn share_two(g: u32, h: u32) -> bool
    ensures { result ≡ share_two g h }
{
    (g & h).count_ones() == 2
}

// Whether two flats meet in the ridge.
pub(crate) fn meet_in(ridge: RidgeRow, g: u32, h: u32) -> bool
    ensures { result ≡ meet_in ridge g h }
{
    share_two(g, h) && ridge.low < ridge.high && holds(g, ridge) && holds(h, ridge)
}

// Whether a mask has at least three ones, and only below the number of corners: that number and not `Corners`, here and in
// rule 7, since these rules ask nothing else of the corners.
fn mask_fits(corners: usize, f: u32) -> bool
    requires { corners ≤ 32 }
    ensures { result ≡ mask_fits corners f }
{
    u64::from(f) < 1u64 << corners && f.count_ones() >= 3
}

// Whether each mask does.
fn masks_hold(corners: usize, flats: &[u32]) -> bool
    requires { corners ≤ 32 }
    ensures { result ≡ list_all (mask_fits corners) flats.now }
{
    flats.iter().all(|f| mask_fits(corners, *f))
}

// Rule 4.
pub(crate) fn masks_fit(corners: usize, flats: &[u32]) -> bool
    requires { corners ≤ 32 }
    ensures { result ≡ masks_fit corners flats.now }
{
    masks_hold(corners, flats) && rise(flats)
}
