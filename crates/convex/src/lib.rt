// Theorems about lists of corners with whole coordinates, for every list: when two share a rational point, and where a proof of it is found.
// No function here computes anything: each one's contract is a theorem, and the crate is proved only with its proof.
#![tactic(auto)]

ghost use Rattle.convex.specs.Theorems.{ProductsAreReached, PlaneIsProof, MixtureIsProof, PointIsMixture, DirectionOrPoint, SpanningOrHeld, DirectionTiltsToFace, ShiftKeepsLaws, MirrorKeepsLaws, SumKeepsLaws};
ghost use Rattle.convex.specs.Theorems.{MoreKeepsLaws, LineKeepsLaws, PlanesSuffice, PlanesTouch, FiveCornersSuffice, FiveCornersMix, PlaneOrFive, WeightsFit, PlanesFit, EdgeInTwoFaces};
ghost use Rattle.convex.specs.Examples.{Examples};

// ---- Products of a direction with the corners of a list.
// The greatest and the least product over a list are products of corners of it, and none is beyond them.
pub fn products_are_reached()
    ensures { ProductsAreReached }
{}

// ---- Proofs: a plane shows that two lists share no point, a mixture that they share one, and one of both always exists.
// Two lists with a plane between them share no rational point.
pub fn plane_is_proof()
    ensures { PlaneIsProof }
{}

// Two lists with an accepted mixture share a rational point.
pub fn mixture_is_proof()
    ensures { MixtureIsProof }
{}

// Two lists that share a rational point have a mixture.
pub fn point_is_mixture()
    ensures { PointIsMixture }
{}

// A plane stands between two lists, or they share a rational point.
pub fn direction_or_point()
    ensures { DirectionOrPoint }
{}

// ---- Apart: a listed plane shows it.
// A list is spanning, or some plane holds it.
pub fn spanning_or_held()
    ensures { SpanningOrHeld }
{}

// A direction with no positive product tilts to a face with none, and stays strict where it was.
pub fn direction_tilts_to_face()
    ensures { DirectionTiltsToFace }
{}

// A shifted list keeps the two laws of flats and ridges.
pub fn shift_keeps_laws()
    ensures { ShiftKeepsLaws }
{}

// A mirrored list keeps the two laws.
pub fn mirror_keeps_laws()
    ensures { MirrorKeepsLaws }
{}

// A sum keeps the two laws.
pub fn sum_keeps_laws()
    ensures { SumKeepsLaws }
{}

// More flats and more ridges keep the two laws.
pub fn more_keeps_laws()
    ensures { MoreKeepsLaws }
{}

// Corners on one line keep the two laws with no flat and one ridge.
pub fn line_keeps_laws()
    ensures { LineKeepsLaws }
{}

// Where two lists share no point, one of the listed planes is accepted.
pub fn planes_suffice()
    ensures { PlanesSuffice }
{}

// Where they only touch, one of the listed planes has equal products.
pub fn planes_touch()
    ensures { PlanesTouch }
{}

// ---- Meeting: five corners show it.
// Where two lists share a point, some five corners yield a mixture.
pub fn five_corners_suffice()
    ensures { FiveCornersSuffice }
{}

// Five corners that yield a mixture are one, by their determinants.
pub fn five_corners_mix()
    ensures { FiveCornersMix }
{}

// Of two sided lists, one of them spanning, a listed plane is accepted or five corners yield a mixture.
pub fn plane_or_five()
    ensures { PlaneOrFive }
{}

// ---- Ranges.
// The determinants of corners within reach are weights within range.
pub fn weights_fit()
    ensures { WeightsFit }
{}

// Ridges, flats and planes are within range.
pub fn planes_fit()
    ensures { PlanesFit }
{}

// ---- Solids.
// An edge lies in two faces, which share no corner off it, and in no third.
pub fn edge_in_two_faces()
    ensures { EdgeInTwoFaces }
{}

// ---- Examples.
// Cases of the theorems, most of them at T and a cube, with their numbers computed.
pub fn examples_hold()
    ensures { Examples }
{}
