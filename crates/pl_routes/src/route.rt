ghost use Rattle.std.specs.Prelude.{◌≡◌};
ghost use Rattle.pl_routes.specs.Table.{row_of};

use pl_rules::Role;

/// A route of the service: a row of the table of routes.
#[derive(Clone, Copy, Debug, PartialEq, Eq)]
pub enum Route {
    /// `PUT /files/{repo}/{ref}/{path}`.
    PutFile,
    /// `DELETE /files/{repo}/{ref}/{path}`.
    RemoveFile,
    /// `GET /files/{repo}/{ref}/{path}`.
    GetFile,
    /// `PUT /pipelines/{name}`.
    SetPipeline,
    /// `PUT /resources/{kind}/{name}`.
    SetResource,
    /// `PUT /principals/{name}`.
    SetPrincipal,
    /// `PUT /agents/{name}`.
    SetAgent,
    /// `POST /texts`.
    QueueText,
    /// `POST /runs`.
    QueueRun,
    /// `GET /runs/{run}`.
    ReadRun,
    /// `POST /runs/{run}/cancel`.
    CancelRun,
    /// `POST /runs/{run}/stages/{stage}/decision`.
    Decide,
    /// `POST /draw`.
    Draw,
    /// `POST /runs/{run}/stages/{stage}/jobs/{job}/claim`.
    Claim,
    /// `GET /runs/{run}/stages/{stage}/jobs/{job}/why/{agent}`.
    Why,
    /// `POST /runs/{run}/stages/{stage}/jobs/{job}/report`.
    Report,
    /// `POST /shutdown`.
    Shutdown,
}

const PUT: &[u8] = b"PUT";

const DELETE: &[u8] = b"DELETE";

const GET: &[u8] = b"GET";

const POST: &[u8] = b"POST";

/// The method of a route (RFC 9110, section 9).
pub fn method_of(route: Route) -> &'static [u8]
    ensures { result.now ≡ (row_of route).method }
{
    match route {
        Route::PutFile => PUT,
        Route::RemoveFile => DELETE,
        Route::GetFile => GET,
        Route::SetPipeline => PUT,
        Route::SetResource => PUT,
        Route::SetPrincipal => PUT,
        Route::SetAgent => PUT,
        Route::QueueText => POST,
        Route::QueueRun => POST,
        Route::ReadRun => GET,
        Route::CancelRun => POST,
        Route::Decide => POST,
        Route::Draw => POST,
        Route::Claim => POST,
        Route::Why => GET,
        Route::Report => POST,
        Route::Shutdown => POST,
    }
}

const ADMIN: &[Role] = &[Role::Admin];

const AUTHORS: &[Role] = &[Role::Admin, Role::Author];

const APPROVER: &[Role] = &[Role::Approver];

const AGENT: &[Role] = &[Role::Agent];

const ANY: &[Role] = &[
    Role::Admin,
    Role::Author,
    Role::Approver,
    Role::Agent,
    Role::Reader,
];

/// The roles of which a caller needs one for a route, in the order in which a refusal names them.
pub fn roles_of(route: Route) -> &'static [Role]
    ensures { result.now ≡ (row_of route).roles }
{
    match route {
        Route::PutFile => AUTHORS,
        Route::RemoveFile => AUTHORS,
        Route::GetFile => ANY,
        Route::SetPipeline => ADMIN,
        Route::SetResource => ADMIN,
        Route::SetPrincipal => ADMIN,
        Route::SetAgent => ADMIN,
        Route::QueueText => AUTHORS,
        Route::QueueRun => AUTHORS,
        Route::ReadRun => ANY,
        Route::CancelRun => AUTHORS,
        Route::Decide => APPROVER,
        Route::Draw => AGENT,
        Route::Claim => AGENT,
        Route::Why => ANY,
        Route::Report => AGENT,
        Route::Shutdown => ADMIN,
    }
}
