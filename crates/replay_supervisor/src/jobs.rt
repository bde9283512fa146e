//! Jobs to be done, each of which takes one good reply.
ghost use Rattle.std.specs.Prelude.{◌≡◌, ◌^◌, ◌<◌, ℕ, false, None, List, Option, option_map, slice_get, replicate, length};
ghost use Rattle.std.specs.Borrow.{sem};
ghost use Rattle.std.specs.Io.BufRead.{Rests};
ghost use Rattle.replay_supervisor.specs.Jobs.{JobsState, Took, Stays};

use mon_io::Memory;

/// Jobs with numbers below a count, each with pieces that are fed to a child, and with a test of replies. The number
/// of jobs, their pieces and which replies are good never change.
pub trait Jobs {
    /// The jobs, and which of them have taken a reply.
    ghost state: { Self → JobsState };

    /// The object stands for a list with a place for each job, which is empty or holds bytes.
    ghost stands: { Self → List (Option (List ℕ)) → Type 0 };

    /// How many jobs there are.
    fn count(&self) -> u32
        ensures value { result ≡ (state self.now).work.count };

    /// A piece of a job, by its index; none exactly past the last one. It takes no memory.
    fn piece(&mut self, job: u32, index: u32) -> Option<&[u8]>
        requires known { job < (state self.old).work.count }
        ensures value { option_map (λ piece. piece.now) result ≡ slice_get ((state self.old).work.pieces job) index }
        ensures* stays { sem 𝓛 (Rests Self.row self.entry (λ new.
            Stays (state self.old) (state new) (stands self.old) (stands new))) };

    /// Takes a reply for a job that has taken none. True exactly where it is good; the job has then taken it, and where
    /// it is not good, or memory is wanted, nothing changed.
    fn take(&mut self, job: u32, bytes: &[u8]) -> Result<bool, Memory>
        requires known { job < (state self.old).work.count }
        requires free { (state self.old).has_taken job ≡ false }
        ensures took { Took job bytes.now (state self.old) (state self.new) (stands self.old) (stands self.new)
            result };

    /// Where no job has taken, the object stands for the list of empty places.
    ghost starts: { (jobs : Self) → ((job : ℕ) → (state jobs).has_taken job ≡ false)
        → stands jobs (replicate (state jobs).work.count None) };

    /// Each job has fewer than 2^32 pieces.
    ghost few: { (jobs : Self) (job : ℕ) → length ((state jobs).work.pieces job) < 2 ^ 32 };
}
