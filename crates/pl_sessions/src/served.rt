ghost use Rattle.std.specs.Prelude.{◌≡◌};
ghost use Rattle.pl_sessions.specs.declared.served.Broken.TheVariants.{WriteFault, Memory};

use pl_base::Failed;
use pl_wire::HttpFault;

/// How a link was served until.
#[derive(Clone, Copy, Debug, PartialEq, Eq)]
pub enum Served {
    /// The input was read to its end, which came between messages.
    Ended,
    /// The input was read to its end, which came so many bytes behind a message's beginning.
    Cut { length: u64 },
    /// Bytes came that are no message. They were answered, and no more is read.
    Bad(HttpFault),
    /// 67,108,864 bytes were taken, and every whole message among them is answered.
    Spent,
    /// An accepted shutdown was answered.
    Stopped,
    /// A read failed.
    ReadFault,
    /// A write failed.
    WriteFault,
    /// Memory is wanting to go on.
    Memory,
}

/// Why a message isn't answered whole.
#[derive(Clone, Copy, Debug, PartialEq, Eq)]
pub enum Broken {
    WriteFault,
    Memory,
}

impl From<Failed> for Broken {
    ghost from_gives = { λ _ e. e ≡ WriteFault };

    fn from(_failed: Failed) -> Broken {
        Broken::WriteFault
    }
}

impl From<pl_base::Memory> for Broken {
    ghost from_gives = { λ _ e. e ≡ Memory };

    fn from(_refused: pl_base::Memory) -> Broken {
        Broken::Memory
    }
}

/// Why no more bytes are there to be looked at.
#[derive(Clone, Copy, Debug, PartialEq, Eq)]
pub enum Unread {
    ReadFault,
    Memory,
}

/// Why no more of the bytes that were read is answered.
#[derive(Clone, Copy, Debug, PartialEq, Eq)]
pub enum Pause {
    /// What is left begins a message.
    More,
    /// What is left can't begin a message.
    Bad(HttpFault),
    /// The last message was an accepted shutdown.
    Stopped,
}
