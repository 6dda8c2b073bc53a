use pl_base::{MarkedNode, Place, Text};

/// What is given for a parameter: the name, the place of the key that gives it, and the value.
#[derive(Debug, Drop)]
pub struct Given {
    pub name: Text,
    pub place: Place,
    pub value: MarkedNode,
}

/// What is bound to a parameter, under the name of its declaration, and whether it was given. What
/// wasn't given is the parameter's default.
#[derive(Debug, Drop)]
pub struct Bound {
    pub name: Text,
    pub value: MarkedNode,
    pub given: bool,
}
