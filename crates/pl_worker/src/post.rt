/// What a worker works with: a desk, a handle of the door, and a clock.
#[derive(Drop)]
pub struct Post<D, L, C> {
    pub desk: D,
    pub door: L,
    pub clock: C,
}

/// Four posts.
#[derive(Drop)]
pub struct Crew<D, L, C> {
    pub first: Post<D, L, C>,
    pub second: Post<D, L, C>,
    pub third: Post<D, L, C>,
    pub fourth: Post<D, L, C>,
}
