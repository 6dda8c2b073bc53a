ghost use Rattle.std.specs.Prelude.{◌≡◌};
ghost use Rattle.pl_routes.specs.Table.{path_of};

/// A path of the table of routes. The routes of one path differ in their methods.
#[derive(Clone, Copy, Debug, PartialEq, Eq)]
pub enum Place {
    File,
    Pipeline,
    Resource,
    Principal,
    Agent,
    Texts,
    Runs,
    Run,
    Cancel,
    Decision,
    Draw,
    Claim,
    Why,
    Report,
    Shutdown,
}

/// The path of a place, in which a name in braces stands for a part.
pub(crate) fn path_of(place: Place) -> &'static str
    ensures { result.now ≡ path_of place }
{
    match place {
        Place::File => "/files/{repo}/{ref}/{path}",
        Place::Pipeline => "/pipelines/{name}",
        Place::Resource => "/resources/{kind}/{name}",
        Place::Principal => "/principals/{name}",
        Place::Agent => "/agents/{name}",
        Place::Texts => "/texts",
        Place::Runs => "/runs",
        Place::Run => "/runs/{run}",
        Place::Cancel => "/runs/{run}/cancel",
        Place::Decision => "/runs/{run}/stages/{stage}/decision",
        Place::Draw => "/draw",
        Place::Claim => "/runs/{run}/stages/{stage}/jobs/{job}/claim",
        Place::Why => "/runs/{run}/stages/{stage}/jobs/{job}/why/{agent}",
        Place::Report => "/runs/{run}/stages/{stage}/jobs/{job}/report",
        Place::Shutdown => "/shutdown",
    }
}
