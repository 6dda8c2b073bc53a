ghost use Rattle.std.specs.Prelude.{◌≤◌, length, chars};

/// Characters of a text: the first so many of those that are left of it. They are read from the
/// text's bytes, one after the other.
#[derive(Clone, Copy)]
pub struct Characters<'t> {
    pub(crate) text: &'t str,
    pub(crate) len: usize,
    ghost within: { len ≤ length (chars text.now) },
}
