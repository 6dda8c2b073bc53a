//! Words, which are compared exactly.

ghost use Rattle.std.specs.Prelude.{◌≡◌};
ghost use Rattle.pl_bodies.specs.Meaning.{Gives};
ghost use Rattle.pl_trees.specs.Trees.{seen};
ghost use Rattle.pl_bodies.specs.Words.{arguments_in, arguments_of, day_in, day_of, outcome_in};
ghost use Rattle.pl_bodies.specs.Words.{outcome_of, role_in, role_of, verdict_in};

use crate::atoms::word_in;
use crate::fault::BodyFault;
use crate::field::Field;
use pl_base::Outcome;
use pl_checks::Arguments;
use pl_rules::{Day, Role};
use pl_trees::Tree;
use std::alloc::Global;

fn role_in(word: &str) -> Result<Role, BodyFault>
    ensures { Gives result (role_in word.now) }
{
    match word {
        "Admin" => Ok(Role::Admin),
        "Author" => Ok(Role::Author),
        "Approver" => Ok(Role::Approver),
        "Agent" => Ok(Role::Agent),
        "Reader" => Ok(Role::Reader),
        _ => Err(BodyFault::Bad),
    }
}

impl Field for Role {
    ghost meant = { role_of };

    fn read(_alloc: Global, value: &Tree<'_>) -> Result<Role, BodyFault> {
        let word = word_in(value)?;
        role_in(word)
    }
}

fn day_in(word: &str) -> Result<Day, BodyFault>
    ensures { Gives result (day_in word.now) }
{
    match word {
        "Mon" => Ok(Day::Mon),
        "Tue" => Ok(Day::Tue),
        "Wed" => Ok(Day::Wed),
        "Thu" => Ok(Day::Thu),
        "Fri" => Ok(Day::Fri),
        "Sat" => Ok(Day::Sat),
        "Sun" => Ok(Day::Sun),
        _ => Err(BodyFault::Bad),
    }
}

impl Field for Day {
    ghost meant = { day_of };

    fn read(_alloc: Global, value: &Tree<'_>) -> Result<Day, BodyFault> {
        let word = word_in(value)?;
        day_in(word)
    }
}

fn arguments_in(word: &str) -> Result<Arguments, BodyFault>
    ensures { Gives result (arguments_in word.now) }
{
    match word {
        "any" => Ok(Arguments::Any),
        "values" => Ok(Arguments::Values),
        _ => Err(BodyFault::Bad),
    }
}

impl Field for Arguments {
    ghost meant = { arguments_of };

    fn read(_alloc: Global, value: &Tree<'_>) -> Result<Arguments, BodyFault> {
        let word = word_in(value)?;
        arguments_in(word)
    }
}

fn outcome_in(word: &str) -> Result<Outcome, BodyFault>
    ensures { Gives result (outcome_in word.now) }
{
    match word {
        "Succeeded" => Ok(Outcome::Succeeded),
        "SucceededWithIssues" => Ok(Outcome::SucceededWithIssues),
        "Failed" => Ok(Outcome::Failed),
        "Canceled" => Ok(Outcome::Canceled),
        _ => Err(BodyFault::Bad),
    }
}

impl Field for Outcome {
    ghost meant = { outcome_of };

    fn read(_alloc: Global, value: &Tree<'_>) -> Result<Outcome, BodyFault> {
        let word = word_in(value)?;
        outcome_in(word)
    }
}

/// Whether the word of a verdict approves.
pub(crate) fn verdict_in(word: &str) -> Result<bool, BodyFault>
    ensures { Gives result (verdict_in word.now) }
{
    match word {
        "approve" => Ok(true),
        "reject" => Ok(false),
        _ => Err(BodyFault::Bad),
    }
}
