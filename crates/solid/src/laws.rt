// Theorems about the reading: each is the contract of a function, so that the check asks for its proof.
ghost use Rattle.solid.specs.Examples.{Examples};
ghost use Rattle.solid.specs.Laws.{Exact};

// A capture is accepted exactly when it keeps every rule, and refused by the first that it breaks.
pub fn reading_is_exact()
    ensures { Exact }
{}

// The worked examples of the tetrahedron T.
pub fn examples_hold()
    ensures { Examples }
{}
