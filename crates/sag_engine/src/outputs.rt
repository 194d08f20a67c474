//! Writing what a command prints.

ghost use Rattle.std.specs.Prelude.{◌≡◌, ℕ, List, [], IfOk, IsTrue};
ghost use Rattle.sag_engine.specs.declared.conclusion.Conclusion.TheVariants.{Spent};
ghost use Rattle.sag_engine.specs.RunEnds.{Writes, Prints};

use crate::conclusion::Conclusion;
use crate::halt::Halt;
use sag_edge::{Sink, write_whole};

/// Appends bytes to the output.
pub(crate) fn deliver<O: Sink>(out: &mut O, bytes: &[u8]) -> Result<(), Halt>
    ensures { Writes bytes.now (O.seen out.old) (O.seen out.new) result }
{
    match write_whole(out, bytes) {
        Ok(()) => Ok(()),
        Err(_) => Err(Halt::Write),
    }
}

/// Ends the output.
pub(crate) fn close<O: Sink>(out: &mut O, conclusion: Conclusion) -> Result<Conclusion, Halt>
    ensures writes { Writes [] (O.seen out.old) (O.seen out.new) result }
    ensures conclusion { IfOk result (λ told. (told ≡ conclusion) × IsTrue (O.seen out.new).finished) }
{
    match out.finish() {
        Ok(()) => Ok(conclusion),
        Err(_) => Err(Halt::Write),
    }
}

/// Ends the output of work that the budget ended: at this level, with so many states and edges.
pub(crate) fn close_spent<O: Sink>(
    out: &mut O,
    level: u16,
    states: u64,
    edges: u64,
) -> Result<Conclusion, Halt>
    ensures writes { Writes [] (O.seen out.old) (O.seen out.new) result }
    ensures conclusion { IfOk result (λ told. (told ≡ Spent level states edges) × IsTrue (O.seen out.new).finished) }
{
    let level = u64::from(level);
    close(
        out,
        Conclusion::Spent {
            level,
            states,
            edges,
        },
    )
}

/// Prints the whole output of a command.
pub(crate) fn print<O: Sink>(
    out: &mut O,
    bytes: &[u8],
    conclusion: Conclusion,
) -> Result<Conclusion, Halt>
    ensures { Prints (record { conclusion = conclusion; bytes = bytes.now })
        (O.seen out.old) (O.seen out.new) result }
{
    deliver(out, bytes)?;
    close(out, conclusion)
}
