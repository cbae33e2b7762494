ghost use Rattle.std.specs.Prelude.{◌≡◌};
ghost use Rattle.scales.specs.Scales.{Ops, Laws};

// A scale of grades. `ops` are its answers as functions, and `laws` what holds of them:
// a bounded distributive lattice with an opposite that turns joins into meets.
pub trait Scale: Copy {
    ghost ops: { Ops Self };

    fn lowest() -> Self
        ensures { result ≡ ops.low };

    fn highest() -> Self
        ensures { result ≡ ops.high };

    fn join(self, other: Self) -> Self
        ensures { result ≡ ops.join self other };

    fn meet(self, other: Self) -> Self
        ensures { result ≡ ops.meet self other };

    fn opposite(self) -> Self
        ensures { result ≡ ops.opposite self };

    // The grade of a reading.
    fn of_reading(reading: u8) -> Self
        ensures { result ≡ ops.grade reading };

    // The number by which a grade is shown.
    fn shown(self) -> u8
        ensures { result ≡ ops.shown self };

    ghost laws: { Laws ops };
}
