/// A point in time: the seconds since 1970-01-01T00:00:00Z, leap seconds left out.
pub type Moment = u64;

/// The last moment that a clock tells: 2099-12-31T23:59:59Z.
pub const LAST_MOMENT: Moment = 4_102_444_799;
