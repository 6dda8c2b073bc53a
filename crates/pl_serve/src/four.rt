/// What a worker has of the outside: a handle of the door, and a clock.
#[derive(Drop)]
pub struct Outside<L, C> {
    pub door: L,
    pub clock: C,
}

/// One for each of four workers.
#[derive(Drop)]
pub struct Four<A> {
    pub first: A,
    pub second: A,
    pub third: A,
    pub fourth: A,
}
