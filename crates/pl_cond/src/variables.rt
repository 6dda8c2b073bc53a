use pl_base::{Text, Value};

/// A variable with its value.
#[derive(Drop)]
pub struct Variable {
    pub name: Text,
    pub value: Value,
}
