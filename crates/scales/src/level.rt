ghost use Rattle.std.specs.Prelude.{◌≤◌};

// A grade from 0 to 255. The laws need the bound, so the type carries it.
#[derive(Clone, Copy, PartialEq, Eq, PartialOrd, Ord, Debug)]
pub struct Level {
    pub value: u8,
    ghost bounded: { value ≤ 255 },
}
