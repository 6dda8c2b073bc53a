//! The statuses of `serve`.

ghost use Rattle.std.specs.Prelude.{◌≡◌};
ghost use Rattle.pl_serving.specs.Statuses.{end_status, fault_status};

use pl_listener::ListenFault;
use pl_outfit::Status;
use pl_worker::End;

/// The status where a door couldn't be opened or shared.
pub(crate) fn fault_status(fault: ListenFault) -> Status
    ensures { result ≡ fault_status fault }
{
    match fault {
        ListenFault::Failed => Status::ListenerFault,
        ListenFault::Memory => Status::Memory,
    }
}

/// The status of four workers, by why they ended.
pub(crate) fn end_status(end: End) -> Status
    ensures { result ≡ end_status end }
{
    match end {
        End::Stopped => Status::Finished,
        End::Failed => Status::ListenerFault,
        End::Memory => Status::Memory,
    }
}
