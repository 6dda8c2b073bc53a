//! Tests of four workers at a hall: over a door in memory, where three of four links wait for the
//! fourth, and over a real door.
#![tactic(auto)]

#[cfg(test)]
mod tests;
