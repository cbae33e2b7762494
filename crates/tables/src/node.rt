use crate::interval::Interval;

// A form of a rule as it is written; `inner`, `left` and `right` are the numbers of forms that ended before.
#[derive(Clone, Copy)]
pub enum Node {
    Top,
    Bottom,
    Fact {
        fact: u8,
    },
    Opposite {
        inner: usize,
    },
    Both {
        left: usize,
        right: usize,
    },
    Either {
        left: usize,
        right: usize,
    },
    Implies {
        left: usize,
        right: usize,
    },
    Next {
        interval: Interval,
        inner: usize,
    },
    DualNext {
        interval: Interval,
        inner: usize,
    },
    Eventually {
        interval: Interval,
        inner: usize,
    },
    Always {
        interval: Interval,
        inner: usize,
    },
    Until {
        interval: Interval,
        left: usize,
        right: usize,
    },
    Release {
        interval: Interval,
        left: usize,
        right: usize,
    },
}
