// Theorems about lawful rows: each is the contract of a function, so that the check asks for its proof.
ghost use Rattle.rules.specs.Laws.{FlatsFaceOut, RidgesJoinCorners};

// Each flat has just one outward direction.
pub fn flats_face_out()
    ensures { FlatsFaceOut }
{}

// Each ridge row names two corners, the lower first.
pub fn ridges_join_corners()
    ensures { RidgesJoinCorners }
{}
