//! What goes to the errors.

ghost use Rattle.std.specs.Prelude.{Err};
ghost use Rattle.sag_engine.specs.RunEnds.{conclusion_text, run_text};
ghost use Rattle.sag_engine.specs.Promises.{Told};

use crate::conclusion::Conclusion;
use crate::halt::Halt;
use sag_edge::Sink;
use sag_texts::{Fault, write_fault, write_spent};

// Tells why the work stopped.
fn tell_halt<E: Sink>(err: &mut E, halt: &Halt)
    ensures { Told (run_text (Err halt.now)) (E.seen err.old) (E.seen err.new) }
{
    let _ = match halt {
        Halt::Usage => write_fault(err, &Fault::Usage),
        Halt::Refused(refusal) => write_fault(err, refusal.fault()),
        Halt::Read(kind) => write_fault(err, &Fault::CannotRead(*kind)),
        Halt::Write => write_fault(err, &Fault::CannotWrite),
        Halt::Memory => write_fault(err, &Fault::NoMemory),
    };
}

// Tells of work that was done where the budget ended it.
fn tell_conclusion<E: Sink>(err: &mut E, conclusion: Conclusion)
    ensures { Told (conclusion_text conclusion) (E.seen err.old) (E.seen err.new) }
{
    match conclusion {
        Conclusion::Done => {}
        Conclusion::No => {}
        Conclusion::Spent {
            level,
            states,
            edges,
        } => {
            let _ = write_spent(err, level, states, edges);
        }
    }
}

/// Tells how the work ended, where there is something to tell.
pub(crate) fn explain<E: Sink>(err: &mut E, end: &Result<Conclusion, Halt>)
    ensures { Told (run_text end.now) (E.seen err.old) (E.seen err.new) }
{
    match end {
        Ok(conclusion) => tell_conclusion(err, *conclusion),
        Err(halt) => tell_halt(err, halt),
    }
}
