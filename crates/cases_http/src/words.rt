//! Words of the cases.

use pl_base::{Kind, Outcome};
use pl_checks::Arguments;
use pl_routes::Route;
use pl_rules::{Day, Role};

pub fn kind_word(kind: Kind) -> &'static str {
    match kind {
        Kind::Environment => "environment",
        Kind::Connection => "connection",
        Kind::Group => "group",
        Kind::Pool => "pool",
        Kind::Repository => "repository",
    }
}

pub fn role_word(role: Role) -> &'static str {
    match role {
        Role::Admin => "Admin",
        Role::Author => "Author",
        Role::Approver => "Approver",
        Role::Agent => "Agent",
        Role::Reader => "Reader",
    }
}

pub fn day_word(day: Day) -> &'static str {
    match day {
        Day::Mon => "Mon",
        Day::Tue => "Tue",
        Day::Wed => "Wed",
        Day::Thu => "Thu",
        Day::Fri => "Fri",
        Day::Sat => "Sat",
        Day::Sun => "Sun",
    }
}

pub fn outcome_word(outcome: Outcome) -> &'static str {
    match outcome {
        Outcome::Succeeded => "Succeeded",
        Outcome::SucceededWithIssues => "SucceededWithIssues",
        Outcome::Failed => "Failed",
        Outcome::Canceled => "Canceled",
        Outcome::Skipped => "Skipped",
    }
}

pub fn arguments_word(arguments: Arguments) -> &'static str {
    match arguments {
        Arguments::Any => "any",
        Arguments::Values => "values",
    }
}

pub fn route_word(route: Route) -> &'static str {
    match route {
        Route::PutFile => "PutFile",
        Route::RemoveFile => "RemoveFile",
        Route::GetFile => "GetFile",
        Route::SetPipeline => "SetPipeline",
        Route::SetResource => "SetResource",
        Route::SetPrincipal => "SetPrincipal",
        Route::SetAgent => "SetAgent",
        Route::QueueText => "QueueText",
        Route::QueueRun => "QueueRun",
        Route::ReadRun => "ReadRun",
        Route::CancelRun => "CancelRun",
        Route::Decide => "Decide",
        Route::Draw => "Draw",
        Route::Claim => "Claim",
        Route::Why => "Why",
        Route::Report => "Report",
        Route::Shutdown => "Shutdown",
    }
}
