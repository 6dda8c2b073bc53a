//! Tests of `pl_words`: the same options, built with `clap`, read the same values. They stand in a
//! crate of their own, so that they are proved without proving a library again.
#![tactic(auto)]

#[cfg(test)]
mod tests;
