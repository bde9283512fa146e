//! What holds of every list of lawful calls.
ghost use Rattle.replay_core.specs.Calls.{LawOfCalls};

/// Whatever lawful calls a book was given, in whatever order: its tickets, jobs, bad attempts and numbers are
/// those that the list of calls says by itself, so each answer is a function of the list; and exactly one reply
/// of the list is the first good one of each job that is done, and none of any other job.
pub fn law_of_calls()
    ensures law { LawOfCalls }
{}
