/// What a compile has a budget of. Past one, memory is wanting.
#[derive(Clone, Copy, Debug, PartialEq, Eq)]
pub enum Budget {
    /// The files of a bundle.
    Bundle,
    /// The bytes and nodes of all files that are read together.
    Files,
    /// The repositories of a root file.
    Repositories,
    /// The parameters that a file declares.
    Parameters,
    /// The nodes that are open at once, over all calls.
    Open,
    /// The bytes of texts and nodes that are made.
    Made,
    /// The units of work.
    Work,
    /// The bytes that a pipeline copies for its stages and legs.
    Copied,
    /// The bytes of a plan's text.
    Plan,
}
