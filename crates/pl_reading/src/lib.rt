//! What definitions of reading share: bytes at the front of a text, steps of which the first fault
//! ends all, and what a call answers by what is meant.
#![tactic(auto)]
