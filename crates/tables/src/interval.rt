ghost use Rattle.std.specs.Prelude.{◌≡◌};
ghost use Rattle.semantics.specs.Forms.{inside, within_upper};
ghost use Rattle.tables.specs.Intervals.{upper_of, interval_of};

// A closed interval in whole milliseconds; without an upper end it has no last one.
#[derive(Clone, Copy)]
pub struct Interval {
    pub lower: u32,
    pub upper: Option<u32>,
}

// Whether x is at most an upper end.
pub fn at_most(upper: Option<u32>, x: u64) -> bool
    ensures { result ≡ within_upper (upper_of upper) x }
{
    upper.is_none_or(|end| x <= end as u64)
}

impl Interval {
    // Whether x lies in the interval.
    pub fn contains(self, x: u64) -> bool
        ensures { result ≡ inside (interval_of self) x }
    {
        self.lower as u64 <= x && at_most(self.upper, x)
    }
}
