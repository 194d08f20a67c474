//! The words of a generator, job by job.

ghost use Rattle.std.specs.Prelude.{◌≡◌};
ghost use Rattle.rand_pcg.specs.Lcg.{advance};
ghost use Rattle.rand_pcg.specs.Pcg.{multiplier_64};
ghost use Rattle.workload_gen.specs.Workload.{words_of};

use rand_core::utils::NextWord;
use rand_pcg::Pcg32;

/// The words of a job, each for what it makes.
#[derive(Clone, Copy)]
pub(crate) struct JobWords {
    pub(crate) release: u32,
    pub(crate) jitter: u32,
    pub(crate) cost: u32,
    pub(crate) more_cost: u32,
    pub(crate) priority: u32,
}

/// The next words of the generator.
#[tactic(auto, unfolding(rand_pcg::specs::Lcg::state_after))]
pub(crate) fn next_words(generator: &mut Pcg32) -> JobWords
    ensures words { result ≡ words_of generator.old }
    ensures moved { generator.new ≡ advance 64 multiplier_64 5 generator.old }
{
    let release = generator.next_word();
    let jitter = generator.next_word();
    let cost = generator.next_word();
    let more_cost = generator.next_word();
    let priority = generator.next_word();
    JobWords {
        release,
        jitter,
        cost,
        more_cost,
        priority,
    }
}
