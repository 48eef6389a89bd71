//! How a run ends.

ghost use Rattle.std.specs.Prelude.{◌≡◌};
ghost use Rattle.hp_report.specs.Exits.{code_of};

use crate::fault::Fault;

/// How a run without a fault ended.
#[derive(Clone, Copy, Debug, PartialEq, Eq)]
pub enum Status {
    /// With the script's report, or with an answer to each line.
    Reported,
    /// With the line that says why the script was refused.
    Refused,
}

/// The exit status of a program: 0 if all was reported, 2 if the script was refused, 4 after a fault.
pub fn exit_code(ended: &Result<Status, Fault>) -> u8
    ensures { result ≡ code_of ended.now }
{
    match ended {
        Ok(Status::Reported) => 0,
        Ok(Status::Refused) => 2,
        Err(_) => 4,
    }
}
