//! Who may call what.

ghost use Rattle.std.specs.Prelude.{◌≡◌};
ghost use Rattle.pl_step.specs.Callers as spec;

use pl_requests::{PrincipalSetting, Request, Role};
use pl_routes::{Route, roles_of};

/// The route of a request.
fn route_of(request: &Request) -> Route
    ensures { result ≡ spec.route_of request.now }
{
    match request {
        Request::PutFile(_) => Route::PutFile,
        Request::RemoveFile(_) => Route::RemoveFile,
        Request::GetFile(_) => Route::GetFile,
        Request::SetPipeline(_) => Route::SetPipeline,
        Request::SetResource(_) => Route::SetResource,
        Request::SetPrincipal(_) => Route::SetPrincipal,
        Request::SetAgent(_) => Route::SetAgent,
        Request::QueueText(_) => Route::QueueText,
        Request::Queue(_) => Route::QueueRun,
        Request::ReadRun { .. } => Route::ReadRun,
        Request::Cancel { .. } => Route::CancelRun,
        Request::Decide { .. } => Route::Decide,
        Request::Draw => Route::Draw,
        Request::Claim(_) => Route::Claim,
        Request::Why { .. } => Route::Why,
        Request::Report { .. } => Route::Report,
        Request::Shutdown => Route::Shutdown,
    }
}

/// The roles of which a caller needs one for a request.
pub(crate) fn wanted_roles(request: &Request) -> &'static [Role]
    ensures { result.now ≡ spec.wanted_roles request.now }
{
    roles_of(route_of(request))
}

/// Whether a principal has a role.
fn has_role(who: &PrincipalSetting, wanted: &Role) -> bool
    ensures { result ≡ spec.has_role who.now wanted.now }
{
    who.roles.as_slice().iter().any(|role| *wanted == *role)
}

/// Whether a principal may make a request: it has one of the roles of the request's route. It takes
/// no memory.
pub fn may_call(who: &PrincipalSetting, request: &Request) -> bool
    ensures { result ≡ spec.may_call who.now request.now }
{
    wanted_roles(request)
        .iter()
        .any(|wanted| has_role(who, wanted))
}
