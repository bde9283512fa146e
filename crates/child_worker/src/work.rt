//! Work on one job, whose bytes come in pieces.
ghost use Rattle.std.specs.Prelude.{◌≡◌, ◌≤◌, ◌<◌, ◌⊎◌, ◌++◌, ◌+◌, ℕ, List, [], Option, None, Some, length, take};
ghost use Rattle.std.specs.Prelude.{IfSome, IfOk, IfErr, OnOk};
ghost use Rattle.std.specs.Option.{option_map};
ghost use Rattle.child_jobs.specs.Heads.{Head, head_of};
ghost use Rattle.child_jobs.specs.Reader.{known_head};
ghost use Rattle.job_format.specs.Job.{weight_limit, weight_of};
ghost use Rattle.job_format.specs.Read.{BreaksJob};
ghost use Rattle.job_format.specs.declared.fault.JobFault.TheVariants as faults;
ghost use Rattle.job_format.specs.declared.item.Item.{Item as AnItem};
ghost use Rattle.sketch_levels.specs.Levels.{Holds};
ghost use Rattle.child_worker.specs.Replies.{AnswersBytes, fed};
ghost use Rattle.child_worker.specs.Work.{Sketches, StopsAt};

use crate::WorkStop;
use crate::reply::{bytes_of, reply_to};
use child_jobs::{JobHead, JobKind, JobReader};
use job_format::{Item, JobFault};
use mon_io::Memory;
use sketch_levels::Levels;
use std::alloc::Global;

/// A job that is read, with the sketch of its items so far.
#[derive(Drop)]
pub(crate) struct Work {
    alloc: Global,
    reader: JobReader,
    levels: Option<Levels>,
    items: u32,
}

impl Work {
    ghost use Rattle.child_worker.specs.Work.{HasWorked, IsWork, LagsBehind, Stays};

    /// No byte was taken. It takes memory.
    pub(crate) fn new(alloc: Global) -> Result<Work, Memory>
        ensures start { IfOk result (λ work. HasWorked work []) }
    {
        Ok(Work {
            alloc,
            reader: JobReader::new(alloc)?,
            levels: None,
            items: 0,
        })
    }

    /// Takes a piece of the job whole. It takes memory once the head of a replay job is there.
    pub(crate) fn take(&mut self, piece: &[u8]) -> Result<(), WorkStop>
        requires work { IsWork self.old }
        ensures takes { OnOk result ((bytes : List ℕ) → HasWorked self.old bytes
            → HasWorked self.new (bytes ++ piece.now)) }
        ensures breach { IfErr result (λ stop. (bytes rest : List ℕ) → HasWorked self.old bytes
            → StopsAt (bytes ++ (piece.now ++ rest)) stop) }
    {
        let mut start = 0;
        while start < piece.len() {
            match self.step(&piece[start..]) {
                Ok(count) => start += count,
                Err(stop) => return Err(stop),
            }
        }
        Ok(())
    }

    /// The bytes of a reply to the job, whose bytes are over; else the first breach, `Short` where they end inside the
    /// job, or `Memory`. It takes memory.
    pub(crate) fn finish(self) -> Result<Vec<u8>, WorkStop>
        requires work { IsWork self }
        ensures answers { IfOk result (λ reply. (bytes : List ℕ) → HasWorked self bytes
            → AnswersBytes bytes reply.items) }
        ensures breach { IfErr result (λ stop. (bytes : List ℕ) → HasWorked self bytes → StopsAt bytes stop) }
    {
        let Work {
            alloc,
            reader,
            levels,
            items,
        } = self;
        let head = reader.head();
        let end = match reader.finish(alloc) {
            Ok(end) => end,
            Err(fault) => return Err(stop_of(fault)),
        };
        let Ok(reply) = reply_to(alloc, head, levels, items, end) else {
            return Err(WorkStop::Memory);
        };
        match bytes_of(alloc, reply) {
            Ok(bytes) => Ok(bytes),
            Err(_) => Err(WorkStop::Memory),
        }
    }

    // Takes bytes up to the end of the piece or that of a frame, and sketches the items of that frame.
    fn step(&mut self, piece: &[u8]) -> Result<usize, WorkStop>
        requires work { IsWork self.old }
        ensures some { 0 < length piece.now → IfOk result (λ n. 0 < n) }
        ensures bound { IfOk result (λ n. n ≤ length piece.now) }
        ensures takes { IfOk result (λ n. (bytes : List ℕ) → HasWorked self.old bytes
            → HasWorked self.new (bytes ++ take n piece.now)) }
        ensures breach { IfErr result (λ stop. (bytes rest : List ℕ) → HasWorked self.old bytes
            → StopsAt (bytes ++ (piece.now ++ rest)) stop) }
    {
        let count = match self.reader.feed(piece) {
            Ok(count) => count,
            Err(fault) => return Err(WorkStop::Fault(fault)),
        };
        let Ok(()) = self.open() else {
            return Err(WorkStop::Memory);
        };
        self.sketch_frame();
        Ok(count)
    }

    // Makes levels where there are none and the head of a replay job is there.
    fn open(&mut self) -> Result<(), Memory>
        ensures opens { OnOk result ((before : Option Head) (given : List AnItem)
            → Stays before (known_head self.old.reader) → Sketches self.old.levels before given
            → Sketches self.new.levels (known_head self.old.reader) given) }
        ensures reader { self.new.reader ≡ self.old.reader }
        ensures items { self.new.items ≡ self.old.items }
    {
        if self.levels.is_some() {
            return Ok(());
        }
        self.levels = first_levels(self.alloc, self.reader.head())?;
        Ok(())
    }

    // Sketches the items of the frame that was ended.
    fn sketch_frame(&mut self)
        requires lags { (bytes : List ℕ) × LagsBehind self.old bytes }
        ensures sketched { (bytes : List ℕ) → LagsBehind self.old bytes → HasWorked self.new bytes }
    {
        let frame = self.reader.frame();
        feed_any(&mut self.levels, frame);
        self.items += frame.len() as u32;
    }
}

/// The bytes of a reply to the job that these bytes spell; else their first breach, or `Memory`. It takes memory.
pub(crate) fn reply_bytes(alloc: Global, job: &[u8]) -> Result<Vec<u8>, WorkStop>
    ensures answers { IfOk result (λ reply. AnswersBytes job.now reply.items) }
    ensures breach { IfErr result (λ stop. StopsAt job.now stop) }
{
    let Ok(mut work) = Work::new(alloc) else {
        return Err(WorkStop::Memory);
    };
    match work.take(job) {
        Ok(()) => work.finish(),
        Err(stop) => Err(stop),
    }
}

// Where a job is not read to its end.
fn stop_of(fault: JobFault) -> WorkStop
    ensures breach { (bytes : List ℕ) → (fault ≡ faults.Memory) ⊎ BreaksJob bytes fault → StopsAt bytes result }
{
    match fault {
        JobFault::Memory => WorkStop::Memory,
        _ => WorkStop::Fault(fault),
    }
}

// Levels to which nothing was fed, for the head of a replay job; none for that of a solve job, or for none.
fn first_levels(alloc: Global, head: Option<JobHead>) -> Result<Option<Levels>, Memory>
    ensures empty { IfOk result (λ levels. Sketches levels (option_map head_of head) []) }
{
    let Some(head) = head else {
        return Ok(None);
    };
    match head.kind {
        JobKind::Replay(params) => Ok(Some(Levels::new(alloc, params)?)),
        JobKind::Solve => Ok(None),
    }
}

// Feeds the items to levels, if there are any.
fn feed_any(levels: &mut Option<Levels>, items: &[Item])
    requires light { IfSome levels.old (λ all. all.weight + weight_of items.now ≤ weight_limit) }
    ensures sketched { (head : Option Head) (given : List AnItem) → (head ≡ None → given ++ items.now ≡ [])
        → Sketches levels.old head given → Sketches levels.new head (given ++ items.now) }
{
    if let Some(all) = levels {
        feed_all(all, items);
    }
}

// Feeds the items, in order.
fn feed_all(levels: &mut Levels, items: &[Item])
    requires light { levels.old.weight + weight_of items.now ≤ weight_limit }
    ensures setting { levels.new.setting ≡ levels.old.setting }
    ensures list { (before : List AnItem) → Holds levels.old (fed before)
        → Holds levels.new (fed (before ++ items.now)) }
{
    for item in items {
        levels.feed(&item.key, item.weight);
    }
}
