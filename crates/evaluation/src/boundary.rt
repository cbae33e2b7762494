ghost use Rattle.std.specs.Prelude.{◌≡◌};
ghost use Rattle.semantics.specs.Values.{test};
ghost use Rattle.evaluation.specs.Boundaries.{behind};

use scales::Scale;

// What stands behind the last event: of a run highest for a final location and lowest for another,
// of an outlook's passes the same grade for every location.
#[derive(Clone, Copy, Debug, PartialEq, Eq)]
pub enum Boundary {
    Run,
    Lowest,
    Highest,
}

pub fn of_test<S: Scale>(holds: bool) -> S
    ensures { result ≡ test S.ops holds }
{
    if holds { S::highest() } else { S::lowest() }
}

impl Boundary {
    pub fn grade<S: Scale>(self, is_final: bool) -> S
        ensures { result ≡ behind S.ops self is_final }
    {
        match self {
            Boundary::Run => of_test(is_final),
            Boundary::Lowest => S::lowest(),
            Boundary::Highest => S::highest(),
        }
    }
}
