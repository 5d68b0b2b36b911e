// Rule 7: each corner lies in at least three flats. Rule 8: the ridges listed are those in which two flats meet.
ghost use Rattle.std.specs.Prelude.{◌≡◌, take};
ghost use Rattle.std.specs.List.{list_all, list_any};
ghost use Rattle.rules.specs.Tests.{every, each_two, some_two};
ghost use Rattle.rules.specs.Masks.{meet_in as meet_at};
ghost use Rattle.rules.specs.Rules.{is_tied, meeting_listed, ridges_fit};

use crate::masks::{holds, lies, meet_in, share_two};
use crate::rising::rise;
use rows::RidgeRow;

// Whether corner k lies in at least three flats.
fn is_tied(flats: &[u32], k: usize) -> bool
    ensures { result ≡ is_tied flats.now k }
{
    flats.iter().filter(|f| lies(k, **f)).count() >= 3
}

pub(crate) fn corners_tied(corners: usize, flats: &[u32]) -> bool
    ensures { result ≡ every corners (is_tied flats.now) }
{
    (0..corners).all(|k| is_tied(flats, k))
}

// Whether two flats meet in a listed ridge.
fn meet_listed(ridges: &[RidgeRow], g: u32, h: u32) -> bool
    ensures { result ≡ list_any (λ e. meet_at e g h) ridges.now }
{
    ridges.iter().any(|e| meet_in(*e, g, h))
}

// Whether two flats, if they share exactly two corners, meet in a listed ridge.
fn meeting_listed(ridges: &[RidgeRow], g: u32, h: u32) -> bool
    ensures { result ≡ meeting_listed ridges.now g h }
{
    !share_two(g, h) || meet_listed(ridges, g, h)
}

// Whether flat h and each of the first k flats, if they share exactly two corners, meet in a listed ridge.
fn are_listed(flats: &[u32], ridges: &[RidgeRow], k: usize, h: u32) -> bool
    ensures { result ≡ list_all (λ g. meeting_listed ridges.now g h) (take k flats.now) }
{
    flats.iter().take(k).all(|g| meeting_listed(ridges, *g, h))
}

// Whether all flats that share exactly two corners meet in a listed ridge.
fn ridges_complete(flats: &[u32], ridges: &[RidgeRow]) -> bool
    ensures { result ≡ each_two (meeting_listed ridges.now) flats.now }
{
    flats
        .iter()
        .enumerate()
        .all(|(k, h)| are_listed(flats, ridges, k, *h))
}

// Whether flat h meets one of the first k flats in the ridge; without a search where the ridge is not in flat h.
fn meets_some(flats: &[u32], ridge: RidgeRow, k: usize, h: u32) -> bool
    ensures { result ≡ list_any (λ g. meet_at ridge g h) (take k flats.now) }
{
    holds(h, ridge) && flats.iter().take(k).any(|g| meet_in(ridge, *g, h))
}

// Whether some two flats meet in the ridge.
fn is_met(flats: &[u32], ridge: RidgeRow) -> bool
    ensures { result ≡ some_two (meet_at ridge) flats.now }
{
    flats
        .iter()
        .enumerate()
        .any(|(k, h)| meets_some(flats, ridge, k, *h))
}

// Whether in each listed ridge two flats meet.
fn ridges_true(flats: &[u32], ridges: &[RidgeRow]) -> bool
    ensures { result ≡ list_all (λ e. some_two (meet_at e) flats.now) ridges.now }
{
    ridges.iter().all(|e| is_met(flats, *e))
}

// Rule 8. The two tables stay two parameters: a struct of both would only be made here and taken apart again.
#[tactic(auto, unfolding(crate::specs::Rules::ridges_fit))]
pub(crate) fn ridges_fit(flats: &[u32], ridges: &[RidgeRow]) -> bool
    ensures { result ≡ ridges_fit flats.now ridges.now }
{
    rise(ridges) && ridges_complete(flats, ridges) && ridges_true(flats, ridges)
}
