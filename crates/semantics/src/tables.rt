ghost use Rattle.semantics.specs.Normals.{Normal};
ghost use Rattle.semantics.specs.Theorems.{Tabled};

// The cell table of every normal form stands for its automaton, is as long as counted, and names only what is there.
pub fn tables()
    ensures { (f : Normal) → Tabled f }
{}
