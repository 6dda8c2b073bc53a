ghost use Rattle.pl_origins.specs.Behind.{KeepsWhatWasExtended};

/// What is expanded behind the border into a template that is extended came through that template.
///
/// Where a frame was reached across the border `extends` just once, and so was all that its
/// parameters and loops hold, this is so of each node and each key that a file's node gives there,
/// however many templates are called in it, from whatever files, and whoever gave their paths
/// (Microsoft Learn, Azure Pipelines, "Security through templates").
pub fn calls_keep_what_was_extended()
    ensures { KeepsWhatWasExtended }
{}
