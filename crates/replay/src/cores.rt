//! When the cores get free.
ghost use Rattle.std.specs.Prelude.{◌≡◌, ℕ, ◌<◌, ◌≤◌, length, slice_index, EachIndex, MatchOption};
ghost use Rattle.job_model.specs.declared.limits.TheConstants.{MOST_CORES};
ghost use Rattle.replay.specs.Cores.{IsFirstFree, IsLowestBy};

/// When the first core is free.
pub fn first_free(free: &[u64]) -> Option<u64>
    ensures { MatchOption result (length free.now ≡ 0) (IsFirstFree free.now) }
{
    free.iter().copied().min()
}

/// The lowest core that is free by the time.
pub fn lowest_free(free: &[u64], time: u64) -> Option<u16>
    requires { length free.now ≤ MOST_CORES }
    ensures { MatchOption result
        (EachIndex free.now (λ core. time < slice_index free.now core))
        (IsLowestBy free.now time) }
{
    let core = free.iter().position(|end| *end <= time)?;
    Some(core as u16)
}
