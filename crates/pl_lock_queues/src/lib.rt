//! Exclusive locks between the stages of runs, by queues: which stage may start next, and which one
//! gives way to a later run, at a cost that doesn't grow with how many stages wait.
#![tactic(auto)]

mod admitting;
mod asking;
mod entering;
mod marks;
mod names;
mod naming;
mod ordering;
mod places;
mod queues;
mod superseded;
mod waiting;

pub use queues::LockQueues;
