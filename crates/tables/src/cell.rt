use crate::interval::Interval;

// A clause of the automaton; its parts are the numbers of earlier cells, and `location` that of a location.
#[derive(Clone, Copy)]
pub enum Cell {
    Accept,
    Reject,
    Holds { fact: u8 },
    Fails { fact: u8 },
    And { left: u16, right: u16 },
    Or { left: u16, right: u16 },
    Inside { interval: Interval },
    Outside { interval: Interval },
    AtMost { upper: Option<u32> },
    Above { upper: Option<u32> },
    Reset { cell: u16 },
    Jump { location: u16 },
}

// A location: the number of its root cell, and whether it is final.
#[derive(Clone, Copy)]
pub struct Location {
    pub root: u16,
    pub is_final: bool,
}
