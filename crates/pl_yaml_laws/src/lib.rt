//! Laws of what YAML texts spell, by style.
#![tactic(auto)]

mod laws;

pub use laws::{
    chomping_changes_the_end, empty_lines_are_passed_over, faults_are_first, line_breaks_are_alike,
    plain_texts_are_themselves, single_quotes_hold_their_text,
};
