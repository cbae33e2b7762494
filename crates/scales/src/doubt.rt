ghost use Rattle.std.specs.Prelude.{◌≡◌, Some};
ghost use Rattle.scales.specs.Doubts.{doubt};
ghost use Rattle.scales.specs.DoubtWords.{words_of};
ghost use Rattle.scales.specs.Models.{doubt_laws};

use crate::scale::Scale;
use std::fmt;

// Three grades, rising; what is unknown is its own opposite.
#[derive(Clone, Copy, PartialEq, Eq, PartialOrd, Ord, Debug)]
pub enum Doubt {
    No,
    Unknown,
    Yes,
}

impl Scale for Doubt {
    ghost ops = { doubt };

    ghost laws = { doubt_laws };

    fn lowest() -> Doubt {
        Doubt::No
    }

    fn highest() -> Doubt {
        Doubt::Yes
    }

    fn join(self, other: Doubt) -> Doubt {
        self.max(other)
    }

    fn meet(self, other: Doubt) -> Doubt {
        self.min(other)
    }

    fn opposite(self) -> Doubt {
        match self {
            Doubt::No => Doubt::Yes,
            Doubt::Unknown => Doubt::Unknown,
            Doubt::Yes => Doubt::No,
        }
    }

    fn of_reading(reading: u8) -> Doubt {
        if reading < 64 {
            Doubt::No
        } else if reading < 192 {
            Doubt::Unknown
        } else {
            Doubt::Yes
        }
    }

    fn shown(self) -> u8 {
        match self {
            Doubt::No => 0,
            Doubt::Unknown => 128,
            Doubt::Yes => 255,
        }
    }
}

impl fmt::Display for Doubt {
    ghost output = { λ x. Some (words_of x) };

    fn fmt<W: fmt::Write>(&self, f: &mut fmt::Formatter<W>) -> fmt::Result {
        f.write_str(match self {
            Doubt::No => "no",
            Doubt::Unknown => "unknown",
            Doubt::Yes => "yes",
        })
    }
}
