//! Tests of what no text of cases spells and no clause says: many lists, bytes and trees that no
//! text is, as many files as there may be, long texts, threads, and calls that take memory. They
//! stand in a crate of their own, so that no library is proved again with them.
#![tactic(auto)]

#[cfg(test)]
mod tests;
