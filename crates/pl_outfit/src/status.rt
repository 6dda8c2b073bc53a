use std::process::ExitCode;

/// How the program ended.
#[derive(Clone, Copy, Debug, PartialEq, Eq)]
pub enum Status {
    /// The input was read to its end, which came between messages, and all replies were written; or
    /// the text that it compiles to was; or a link ended with an accepted shutdown.
    Finished,
    /// A read of the source failed.
    ReadFault,
    /// The words are no command.
    Usage,
    /// A write to the sink failed.
    WriteFault,
    /// The store couldn't be opened: it failed.
    KeeperFault,
    /// A kept row is torn.
    Torn,
    /// Memory was wanting.
    Memory,
    /// The listener failed, and no link ended with an accepted shutdown.
    ListenerFault,
    /// The pipeline is refused.
    Refused,
    /// The input ended inside a message, or bytes came that are no message; or it is no bundle.
    NotWhole,
    /// 67,108,864 bytes were taken from the source.
    Spent,
}

impl Status {
    ghost use Rattle.std.specs.Prelude.{◌≡◌};
    ghost use Rattle.std.specs.Process.{exit_status};
    ghost use Rattle.pl_outfit.specs.Statuses.{code_of};

    /// With what the process ends.
    pub fn exit_code(self) -> ExitCode
        ensures { exit_status result ≡ code_of self }
    {
        ExitCode::from(self.code())
    }

    /// The exit status of the process.
    pub fn code(self) -> u8
        ensures { result ≡ code_of self }
    {
        match self {
            Status::Finished => 0,
            Status::ReadFault => 1,
            Status::Usage => 2,
            Status::WriteFault => 3,
            Status::KeeperFault => 4,
            Status::Torn => 5,
            Status::Memory => 6,
            Status::ListenerFault => 7,
            Status::Refused => 8,
            Status::NotWhole => 9,
            Status::Spent => 10,
        }
    }
}
