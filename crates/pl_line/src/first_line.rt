use crate::characters::Characters;

/// A text's first line: its characters up to the first one that no text may have, and whether those
/// are all before its break.
#[derive(Clone, Copy)]
pub(crate) enum FirstLine<'t> {
    /// A break ends it; the text behind that.
    Broken(Characters<'t>, bool, &'t str),
    /// No line feed stands in the text.
    Last(Characters<'t>, bool),
}
