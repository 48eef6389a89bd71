//! Why a file gives no signals.

ghost use Rattle.std.specs.Prelude.{◌≡◌};
ghost use Rattle.hp_signals.specs.Exits.{code_of_signals};

use hp_script::Refusal;
use thiserror::Error;

/// Why a file gives no signals.
#[derive(Debug, PartialEq, Eq, Drop, Error)]
pub enum SignalsFault {
    /// Its bytes are refused.
    #[error("signals refused {0}")]
    Refused(Refusal),
    /// It can't be read.
    #[error("the signals' file can't be read")]
    Unread,
    /// Memory ran out.
    #[error("fault F1")]
    Memory,
}

/// The exit status of a program where a file gives no signals: 3, or 4 if memory ran out.
pub fn signals_code(fault: &SignalsFault) -> u8
    ensures { result ≡ code_of_signals fault.now }
{
    match fault {
        SignalsFault::Refused(_) | SignalsFault::Unread => 3,
        SignalsFault::Memory => 4,
    }
}
