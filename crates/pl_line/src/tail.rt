/// What is left of a text whose characters are taken off one by one.
#[derive(Clone, Copy)]
pub(crate) struct Tail<'t> {
    pub(crate) text: &'t str,
}
