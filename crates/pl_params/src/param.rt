use crate::kind::ParamKind;
use pl_base::{List, Node, Place, Text};

/// A declared parameter: its name, where it is declared, its type, what is bound where nothing is
/// given, and the values that are allowed, which are all where none is listed.
#[derive(Debug, Drop)]
pub struct Param {
    pub name: Text,
    pub place: Place,
    pub kind: ParamKind,
    pub default: Option<Node>,
    pub values: List<Node>,
}

/// The parameters of a template, in the order of their declarations.
pub type Declared = List<Param>;
