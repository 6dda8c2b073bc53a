use pl_base::Text;
use pl_line::Line;

/// A key of a mapping: the line from where it begins, its text, and what is left of the line behind
/// the `:`.
#[derive(Drop)]
pub(crate) struct Key<'t> {
    pub(crate) start: Line<'t>,
    pub(crate) text: Text,
    pub(crate) left: Line<'t>,
}
