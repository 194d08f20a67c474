//! Streams that are written.

ghost use Rattle.std.specs.Prelude.{◌≡◌, ℕ, ◌+◌, ◌<◌, ◌≤◌, List, [], length, take, false, true, IsTrue, IfOk, OnOk, OnErr};
ghost use Rattle.sag_edge.specs.Causes.{HasCause};
ghost use Rattle.sag_edge.specs.Writing.{SeenSink, GrowsBy, StillTells, Puts};

use crate::reading::Failed;

/// A stream that takes bytes.
///
/// A sink may tell the bytes that it took. It tells them at least while they are within its room; beyond it, it
/// may stop telling them at a call, and then never tells them again. It always tells how many of its calls
/// failed, and whether it is finished, which a new sink is not.
pub trait Sink {
    ghost seen: { Self → SeenSink };

    /// Takes the first bytes of the piece, and gives how many: at least one of a piece that has any. `Failed`
    /// takes nothing.
    fn write(&mut self, bytes: &[u8]) -> Result<usize, Failed>
        ensures cause { HasCause (seen self.old).faults (seen self.new).faults result }
        ensures bound { IfOk result (λ n. n ≤ length bytes.now) }
        ensures goes { IfOk result (λ n. 0 < length bytes.now → 0 < n) }
        ensures ok { IfOk result (λ n. GrowsBy (seen self.old).taken (seen self.new).taken (take n bytes.now)) }
        ensures failed { OnErr result (GrowsBy (seen self.old).taken (seen self.new).taken []) }
        ensures tells { StillTells (seen self.old) (seen self.new) bytes.now }
        ensures resumes { IfOk result (λ n. 0 < n → (seen self.new).finished ≡ false) }
        ensures stays { IfOk result (λ n. n ≡ 0 → (seen self.new).finished ≡ (seen self.old).finished) }
        ensures kept { OnErr result ((seen self.new).finished ≡ (seen self.old).finished) };

    /// Hands on what was taken. The sink is finished then, until a write takes bytes.
    fn finish(&mut self) -> Result<(), Failed>
        ensures cause { HasCause (seen self.old).faults (seen self.new).faults result }
        ensures bytes { GrowsBy (seen self.old).taken (seen self.new).taken [] }
        ensures tells { StillTells (seen self.old) (seen self.new) [] }
        ensures ok { OnOk result (IsTrue (seen self.new).finished) };
}

/// Writes all of the bytes, in as many writes as it takes. After `Failed`, which is a write's, the first ones
/// of the bytes were taken. It does not finish the sink.
pub fn write_whole<S: Sink>(sink: &mut S, bytes: &[u8]) -> Result<(), Failed>
    ensures { Puts (S.seen sink.old) (S.seen sink.new) bytes.now result }
{
    let mut rest = bytes;
    while !rest.is_empty() {
        match sink.write(rest) {
            Ok(count) => (_, rest) = rest.split_at(count),
            Err(failed) => return Err(failed),
        }
    }
    Ok(())
}
