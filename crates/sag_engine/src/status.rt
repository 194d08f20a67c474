//! The statuses, and their numbers.

ghost use Rattle.std.specs.Prelude.{◌≡◌};
ghost use Rattle.sag_engine.specs.RunEnds.{run_status};
ghost use Rattle.sag_engine.specs.Status.{status_number};

use crate::conclusion::Conclusion;
use crate::halt::Halt;

/// How a run of the program ends.
#[derive(Clone, Copy, Debug, PartialEq, Eq)]
pub enum Status {
    /// The work was done, and its output is finished.
    Ok,
    /// The certificate is readable and not valid, or the recorded run is not legal.
    No,
    /// The words ask for no command.
    Usage,
    /// An input breaks a rule.
    Refused,
    /// The graph exceeds the budget.
    Spent,
    /// A file cannot be read.
    ReadFault,
    /// The output takes no more.
    WriteFault,
    /// Memory ran out.
    Memory,
}

impl Status {
    /// The number with which the program ends.
    pub fn number(self) -> u8
        ensures { result ≡ status_number self }
    {
        match self {
            Status::Ok => 0,
            Status::No => 1,
            Status::Usage => 2,
            Status::Refused => 3,
            Status::Spent => 4,
            Status::ReadFault => 5,
            Status::WriteFault => 6,
            Status::Memory => 7,
        }
    }
}

/// The status of an end.
pub(crate) fn status_of(end: &Result<Conclusion, Halt>) -> Status
    ensures { result ≡ run_status end.now }
{
    match end {
        Ok(Conclusion::Done) => Status::Ok,
        Ok(Conclusion::No) => Status::No,
        Ok(Conclusion::Spent { .. }) => Status::Spent,
        Err(Halt::Usage) => Status::Usage,
        Err(Halt::Refused(_)) => Status::Refused,
        Err(Halt::Read(_)) => Status::ReadFault,
        Err(Halt::Write) => Status::WriteFault,
        Err(Halt::Memory) => Status::Memory,
    }
}
