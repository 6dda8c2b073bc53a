use pl_base::{Node, Text};

/// A quoted scalar: its text, and how many characters of its line it takes, both quotes counted.
#[derive(Drop)]
pub struct Quoted {
    pub text: Text,
    pub len: usize,
}

/// A flow collection, and how many characters of its line it takes, both brackets counted.
#[derive(Drop)]
pub struct Flow {
    pub node: Node,
    pub len: usize,
}
