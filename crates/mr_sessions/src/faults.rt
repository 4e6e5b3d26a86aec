//! The faults of a session, as a client's session tells them.
ghost use Rattle.std.specs.Prelude.{◌≡◌};
ghost use Rattle.mr_sessions.specs.ClientSession.{worker_error_of};

use mr_desks::WorkerError;
use mr_node::session::SessionFault;

/// A fault of a session, as a client's session tells it.
pub(crate) fn worker_error_of(fault: SessionFault) -> WorkerError
    ensures { result ≡ worker_error_of fault }
{
    match fault {
        SessionFault::ReadFault => WorkerError::ReadFault,
        SessionFault::WriteFault => WorkerError::WriteFault,
        SessionFault::TurnsSpent => WorkerError::TurnsSpent,
        SessionFault::OutOfMemory => WorkerError::OutOfMemory,
    }
}
