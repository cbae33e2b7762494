ghost use Rattle.std.specs.Prelude.{◌≡◌};
ghost use Rattle.scales.specs.Plains.{plain};
ghost use Rattle.scales.specs.Models.{plain_laws};

use crate::scale::Scale;

// Two grades: a thing holds or it does not.
#[derive(Clone, Copy, PartialEq, Eq, PartialOrd, Ord, Debug)]
pub enum Plain {
    No,
    Yes,
}

impl Scale for Plain {
    ghost ops = { plain };

    ghost laws = { plain_laws };

    fn lowest() -> Plain {
        Plain::No
    }

    fn highest() -> Plain {
        Plain::Yes
    }

    // By cases, as meet: the order's `max` takes a third more time and twice as much over grades in order.
    fn join(self, other: Plain) -> Plain {
        match self {
            Plain::No => other,
            Plain::Yes => Plain::Yes,
        }
    }

    fn meet(self, other: Plain) -> Plain {
        match self {
            Plain::No => Plain::No,
            Plain::Yes => other,
        }
    }

    fn opposite(self) -> Plain {
        match self {
            Plain::No => Plain::Yes,
            Plain::Yes => Plain::No,
        }
    }

    fn of_reading(reading: u8) -> Plain {
        if reading < 128 { Plain::No } else { Plain::Yes }
    }

    fn shown(self) -> u8 {
        match self {
            Plain::No => 0,
            Plain::Yes => 255,
        }
    }
}
