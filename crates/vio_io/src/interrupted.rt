// Calls to the system that a signal may interrupt: which answers stand, and which calls are made again.
ghost use Rattle.std.specs.Prelude.{◌≡◌, IfSome, IfNone, IfOk, IsOk, IsErr, IfErr, OnOk, OnErr, ◌≢◌};
ghost use Rattle.std.specs.IoError.{error_kind};

use crate::outside::Failed;
use std::io;
use std::io::ErrorKind;

// Says whether an answer stands: none where a signal interrupted the call, which is then made again.
pub(crate) fn settled(answer: io::Result<usize>) -> Option<Result<usize, Failed>>
    ensures again { IfNone result (IsErr answer) }
    ensures done { IfSome result (λ stands. IfOk stands (λ n. IfOk answer (λ given. given ≡ n))) }
    ensures answered { IfSome result (λ stands. OnOk stands (IsOk answer)) }
    ensures interrupted { IfNone result
        (IfErr answer (λ error. error_kind error ≡ ErrorKind.Interrupted)) }
    ensures lasting { IfSome result (λ stands. OnErr stands
        (IfErr answer (λ error. error_kind error ≢ ErrorKind.Interrupted))) }
    ensures failed { IfSome result (λ stands. OnErr stands (IsErr answer)) }
{
    match answer {
        Ok(n) => Some(Ok(n)),
        Err(error) if error.kind() == ErrorKind::Interrupted => None,
        Err(_) => Some(Err(Failed)),
    }
}
