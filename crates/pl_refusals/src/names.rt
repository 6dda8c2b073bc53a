//! What kinds of values are called in JSON. None of these takes memory.

ghost use Rattle.std.specs.Prelude.{◌≡◌};
ghost use Rattle.pl_refusals.specs.Names.{day_name, kind_name, outcome_name, role_name, state_name};
ghost use Rattle.pl_refusals.specs.Names.{verdict_name};

use pl_base::{Kind, Outcome};
use pl_rules::{Day, Role, State};

/// A result (Microsoft Learn, Azure Pipelines, "Expressions", Dependencies).
pub fn outcome_name(outcome: Outcome) -> &'static str
    ensures { result.now ≡ outcome_name outcome }
{
    match outcome {
        Outcome::Succeeded => "Succeeded",
        Outcome::SucceededWithIssues => "SucceededWithIssues",
        Outcome::Failed => "Failed",
        Outcome::Canceled => "Canceled",
        Outcome::Skipped => "Skipped",
    }
}

/// A kind of resource.
pub fn kind_name(kind: Kind) -> &'static str
    ensures { result.now ≡ kind_name kind }
{
    match kind {
        Kind::Environment => "environment",
        Kind::Connection => "connection",
        Kind::Group => "group",
        Kind::Pool => "pool",
        Kind::Repository => "repository",
    }
}

/// A day of the week.
pub fn day_name(day: Day) -> &'static str
    ensures { result.now ≡ day_name day }
{
    match day {
        Day::Mon => "Mon",
        Day::Tue => "Tue",
        Day::Wed => "Wed",
        Day::Thu => "Thu",
        Day::Fri => "Fri",
        Day::Sat => "Sat",
        Day::Sun => "Sun",
    }
}

/// What a principal may do.
pub fn role_name(role: Role) -> &'static str
    ensures { result.now ≡ role_name role }
{
    match role {
        Role::Admin => "Admin",
        Role::Author => "Author",
        Role::Approver => "Approver",
        Role::Agent => "Agent",
        Role::Reader => "Reader",
    }
}

/// How far a stage or a job has come.
pub fn state_name(state: State) -> &'static str
    ensures { result.now ≡ state_name state }
{
    match state {
        State::Waiting => "waiting",
        State::Running => "running",
        State::Ended => "ended",
    }
}

/// A decision: whether it approves.
pub fn verdict_name(approve: bool) -> &'static str
    ensures { result.now ≡ verdict_name approve }
{
    match approve {
        true => "approve",
        false => "reject",
    }
}
