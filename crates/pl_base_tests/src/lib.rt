//! Tests of `pl_base` and `pl_graph`, of what no clause says: that what takes memory succeeds where
//! there is plenty, what is printed, how large a value is, and that the definitions of `pl_graph`
//! say what slow ones do. They stand in a crate of their own, so that they are proved without
//! proving a library again.
#![tactic(auto)]

#[cfg(test)]
mod tests;
