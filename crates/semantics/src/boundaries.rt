ghost use Rattle.semantics.specs.Theorems.{Relational, RelationalAhead, Monotone, Cut};

use scales::Scale;

// Values on two scales, whose facts and boundaries are related, are related too.
pub fn relational<S: Scale, T: Scale>()
    ensures throughout { Relational S.Scale.ops T.Scale.ops }
    ensures ahead { RelationalAhead S.Scale.ops T.Scale.ops }
{}

// Values grow with their boundary.
pub fn monotone<S: Scale>()
    ensures { Monotone S.ops }
{}

// The value on a continuation is that on the events before the cut, given what the continuation has one event later.
pub fn cut<S: Scale>()
    ensures { Cut S.ops }
{}
