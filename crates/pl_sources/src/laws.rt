ghost use Rattle.pl_sources.specs.Again.{CompilesToOne, SourcesCompileAgain};

/// A plan's sources are all that it takes to compile it again.
///
/// Over the files among its sources alone, with the root's key and the arguments that stand there,
/// a pipeline compiles to the same plan with the same sources (clause `again`). And a pipeline
/// compiles to one thing: what compiles isn't refused, nor is another plan its answer, so compiling
/// again gives the same or ends where memory is wanting (clause `one`).
pub fn sources_compile_again()
    ensures again { SourcesCompileAgain }
    ensures one { CompilesToOne }
{}
