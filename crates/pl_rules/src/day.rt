ghost use Rattle.std.specs.Prelude.{◌≡◌};
ghost use Rattle.pl_rules.specs.Days.{day_number};

/// A day of the week, from Monday (ISO 8601 numbers them so).
#[derive(Clone, Copy, Debug, PartialEq, Eq)]
pub enum Day {
    Mon,
    Tue,
    Wed,
    Thu,
    Fri,
    Sat,
    Sun,
}

impl Day {
    /// Its place among the days of a week, from 0 for Monday.
    pub fn number(self) -> u8
        ensures { result ≡ day_number self }
    {
        self as u8
    }
}
