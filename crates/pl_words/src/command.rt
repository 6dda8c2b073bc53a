use pl_base::{Argument, Digest, List, Text};

/// What the words of the command line ask for.
#[derive(Debug, Drop)]
pub enum Command {
    /// `replay --admin HEX`, and `--store PATH` or not: answer the messages of the standard input,
    /// as a service whose admin's token has this SHA-256 digest, and whose rows are kept in the
    /// store at this path, or in memory.
    Replay {
        admin: Digest,
        store: Option<Text>,
    },
    /// `serve --admin HEX --listen ADDRESS`, and `--store PATH` or not: answer the messages of the
    /// links that come to a door at this address, as such a service.
    Serve {
        admin: Digest,
        address: Text,
        store: Option<Text>,
    },
    /// `compile`, each argument being a `--param NAME=TEXT`: compile the bundle of the standard
    /// input, as a run with these arguments.
    Compile {
        arguments: List<Argument>,
    },
    /// `rehearse --runs N`: rehearse so many generated runs on a service of its own.
    Rehearse {
        runs: u64,
    },
}
