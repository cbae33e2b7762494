ghost use Rattle.std.specs.Prelude.{◌≡◌, true};
ghost use Rattle.scales.specs.Scales.{Laws, AtMost, dual};
ghost use Rattle.scales.specs.Lattices.{Lattice};

use crate::scale::Scale;

// What follows from the laws, on every scale: the order, its bounds, and the scale upside down.
pub fn lattice<S: Scale>()
    ensures facts { Lattice S.ops }
    ensures upside_down { Laws (dual S.ops) }
{}
