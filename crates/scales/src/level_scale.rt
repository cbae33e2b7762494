ghost use Rattle.std.specs.Prelude.{◌≡◌};
ghost use Rattle.scales.specs.Levels.{level};
ghost use Rattle.scales.specs.Models.{level_laws};

use crate::level::Level;
use crate::scale::Scale;

impl Scale for Level {
    ghost ops = { level };

    ghost laws = { level_laws };

    fn lowest() -> Level {
        Level { value: 0 }
    }

    fn highest() -> Level {
        Level { value: 255 }
    }

    fn join(self, other: Level) -> Level {
        self.max(other)
    }

    fn meet(self, other: Level) -> Level {
        self.min(other)
    }

    fn opposite(self) -> Level {
        Level {
            value: 255 - self.value,
        }
    }

    fn of_reading(reading: u8) -> Level {
        Level { value: reading }
    }

    fn shown(self) -> u8 {
        self.value
    }
}
