use crate::interval::Interval;

// A form of a normal form; only facts are opposed.
#[derive(Clone, Copy)]
pub enum NormalNode {
    Top,
    Bottom,
    Fact {
        fact: u8,
    },
    Opposed {
        fact: u8,
    },
    Both {
        left: usize,
        right: usize,
    },
    Either {
        left: usize,
        right: usize,
    },
    Next {
        interval: Interval,
        inner: usize,
    },
    DualNext {
        interval: Interval,
        inner: usize,
    },
    Until {
        interval: Interval,
        left: usize,
        right: usize,
    },
    Release {
        interval: Interval,
        left: usize,
        right: usize,
    },
}
