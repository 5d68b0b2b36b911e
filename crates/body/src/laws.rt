// Theorems above the definitions of the answers: no function here computes anything.
ghost use Rattle.body.specs.Theorems.{FarthestIsLowest, ExtentIsTight};

// The farthest corner has the greatest product, and no lower number has it.
pub fn farthest_is_lowest()
    ensures { FarthestIsLowest }
{}

// No corner is outside the extent, and each of its sides touches one.
pub fn extent_is_tight()
    ensures { ExtentIsTight }
{}
