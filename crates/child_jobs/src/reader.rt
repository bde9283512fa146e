//! A job, read in pieces.
ghost use Rattle.std.specs.Prelude.{◌≡◌, ◌≤◌, ◌<◌, ◌⊎◌, ◌+◌, ◌++◌, [], None, Some, Ok, Err, List, ℕ, true, false, length, take, drop, map, IfOk, IfErr, OnOk, IsErr, All, vec_capacity};
ghost use Rattle.std.specs.Option.{option_map, option_to_list};
ghost use Rattle.byte_format.specs.Format.{Broken, reached};
ghost use Rattle.job_format.specs.Given.{item_gives, need_gives, site_gives};
ghost use Rattle.job_format.specs.Held.{need_of};
ghost use Rattle.job_format.specs.Job.{frame_limit, item_limit, weight_limit, weight_of};
ghost use Rattle.job_format.specs.Places.{job_format, job_start, judge_place, place_size};
ghost use Rattle.job_format.specs.Read.{BreaksJob};
ghost use Rattle.job_format.specs.Rooms.{has_room};
ghost use Rattle.job_format.specs.declared.fault.JobFault.{JobFault as Fault};
ghost use Rattle.job_format.specs.declared.fault.JobFault.TheVariants as faults;
ghost use Rattle.job_format.specs.declared.item.Item.{Item as AnItem};
ghost use Rattle.child_jobs.specs.Ends.{Ends};
ghost use Rattle.child_jobs.specs.Heads.{BeginsWith, Head, head_of};
ghost use Rattle.child_jobs.specs.Items.{place_in_frame};
ghost use Rattle.child_jobs.specs.Rooms.{Completes, HasRoom, ends_frame};

use crate::items::read_items;
use crate::{JobEnd, JobHead};
use bound_certificate::Site;
use job_format::{
    HeadNumbers, HeadStep, HeldNeed, Item, JobFault, Kind, Place, Tally, item_at, judge, need_at,
    place_size, site_at,
};
use mon_io::Memory;
use std::alloc::Global;

/// A reader of one job, whose bytes come in pieces.
#[derive(Drop)]
pub struct JobReader {
    /// What stands next, and the bytes of its field that are there: the first so many of those held.
    place: Place,
    held: [u8; 44],
    filled: usize,
    /// The first breach, once it was met.
    stop: Option<JobFault>,
    /// The items of a frame, and whether they are all of it and are lent.
    frame: Vec<Item>,
    ended: bool,
    /// The sites and needs so far of a solve job.
    sites: Vec<Site>,
    needs: Vec<HeldNeed>,
    ghost room: { HasRoom place ended (length frame.items) (length sites.items) (length needs.items) },
    ghost via: { has_room place ≡ true },
    ghost frame_room: { 4096 ≤ vec_capacity frame },
    ghost site_room: { 32 ≤ vec_capacity sites },
    ghost need_room: { 64 ≤ vec_capacity needs },
    ghost short: { filled < place_size place },
    ghost held_room: { place_size place ≤ 44 },
}

impl JobReader {
    ghost use Rattle.child_jobs.specs.Reader.{Begins, HasTaken, Moves, TakesField, known_head, lent, state, stopped};

    /// A reader that has taken no byte. It takes the memory that reading wants.
    pub fn new(alloc: Global) -> Result<JobReader, Memory>
        ensures start { IfOk result (λ reader. HasTaken reader [] []) }
        ensures headless { IfOk result (λ reader. known_head reader ≡ None) }
    {
        let Ok(frame) = Vec::with_capacity(alloc, 4096) else {
            return Err(Memory);
        };
        let Ok(sites) = Vec::with_capacity(alloc, 32) else {
            return Err(Memory);
        };
        let Ok(needs) = Vec::with_capacity(alloc, 64) else {
            return Err(Memory);
        };
        Ok(JobReader {
            place: first_place(),
            held: [0; 44],
            filled: 0,
            stop: None,
            frame,
            ended: false,
            sites,
            needs,
        })
    }

    /// Takes bytes of the piece up to its end or that of a frame, and says how many, at least one of a piece that isn't
    /// empty; else the first breach, which every later call answers again. It takes no memory.
    pub fn feed(&mut self, piece: &[u8]) -> Result<usize, JobFault>
        ensures some { 0 < length piece.now → IfOk result (λ n. 0 < n) }
        ensures bound { IfOk result (λ n. n ≤ length piece.now) }
        ensures takes { IfOk result (λ n. (bytes : List ℕ) (given : List AnItem) → HasTaken self.old bytes given
            → HasTaken self.new (bytes ++ take n piece.now) (given ++ lent self.new)) }
        ensures head { IfOk result (λ n. (head : Head) → known_head self.old ≡ Some head
            → known_head self.new ≡ Some head) }
        ensures breach { IfErr result (λ fault. (bytes rest : List ℕ) (given : List AnItem)
            → HasTaken self.old bytes given → BreaksJob (bytes ++ (piece.now ++ rest)) fault) }
        ensures stops { IfErr result (λ fault. stopped self.new ≡ Some fault) }
        ensures again { (fault : Fault) → stopped self.old ≡ Some fault → result ≡ Err fault }
    {
        if let Some(fault) = self.stop {
            return Err(fault);
        }
        check_bytes(piece);
        self.begin();
        self.take_on(piece)
    }

    // Forgets the frame that was lent.
    fn begin(&mut self)
        requires going { stopped self.old ≡ None }
        ensures begins { Begins self.old self.new }
        ensures ended { self.new.ended ≡ false }
    {
        if self.ended {
            self.frame.clear();
            self.ended = false;
        }
    }

    // Takes bytes up to the end of the piece or of a frame.
    fn take_on(&mut self, piece: &[u8]) -> Result<usize, JobFault>
        requires going { stopped self.old ≡ None }
        requires within { self.old.ended ≡ false }
        ensures moves { IfOk result (λ n. Moves self.old self.new (take n piece.now)) }
        ensures some { 0 < length piece.now → IfOk result (λ n. 0 < n) }
        ensures bound { IfOk result (λ n. n ≤ length piece.now) }
        ensures breach { IfErr result (λ fault. reached job_format (state self.old) piece.now ≡ Broken fault) }
        ensures stops { IfErr result (λ fault. stopped self.new ≡ Some fault) }
    {
        let mut taken = 0;
        while taken < piece.len() {
            match self.step(rest_of(piece, taken)) {
                Ok(count) => taken += count,
                Err(fault) => return Err(fault),
            }
            if self.ended {
                return Ok(taken);
            }
        }
        Ok(taken)
    }

    // Takes bytes up to the end of the items that stand whole in the piece, or else of a field.
    #[inline]
    fn step(&mut self, piece: &[u8]) -> Result<usize, JobFault>
        requires some { 0 < length piece.now }
        requires going { stopped self.old ≡ None }
        requires within { self.old.ended ≡ false }
        ensures moves { IfOk result (λ n. Moves self.old self.new (take n piece.now)) }
        ensures some { IfOk result (λ n. 0 < n) }
        ensures bound { IfOk result (λ n. n ≤ length piece.now) }
        ensures breach { IfErr result (λ fault. reached job_format (state self.old) piece.now ≡ Broken fault) }
        ensures stops { IfErr result (λ fault. stopped self.new ≡ Some fault) }
    {
        if self.filled > 0 {
            return self.take_part(piece);
        }
        let taken = self.take_items(piece);
        if taken > 0 {
            return Ok(taken);
        }
        self.take_one(piece)
    }

    // Takes the right items that stand whole in the piece, if an item stands next.
    #[inline]
    fn take_items(&mut self, piece: &[u8]) -> usize
        requires going { stopped self.old ≡ None }
        requires within { self.old.ended ≡ false }
        requires start { self.old.filled ≡ 0 }
        ensures moves { Moves self.old self.new (take result piece.now) }
        ensures bound { result ≤ length piece.now }
        ensures within { result ≡ 0 → self.new.ended ≡ false }
        ensures start { self.new.filled ≡ 0 }
    {
        let Place::Key {
            numbers,
            tally,
            left,
        } = &self.place
        else {
            return 0;
        };
        let (numbers, items) = (*numbers, tally.items);
        let run = read_items(tally.weight, *left, piece, &mut self.frame);
        self.ended = run.left == 0;
        self.place = place_in_frame(numbers, items, run.weight, run.left);
        run.taken
    }

    // Takes bytes up to the end of a field, which is judged where it stands if it is whole in the piece.
    fn take_one(&mut self, piece: &[u8]) -> Result<usize, JobFault>
        requires some { 0 < length piece.now }
        requires going { stopped self.old ≡ None }
        requires start { self.old.filled ≡ 0 }
        requires within { self.old.ended ≡ false }
        ensures moves { IfOk result (λ n. Moves self.old self.new (take n piece.now)) }
        ensures some { IfOk result (λ n. 0 < n) }
        ensures bound { IfOk result (λ n. n ≤ length piece.now) }
        ensures breach { IfErr result (λ fault. reached job_format (state self.old) piece.now ≡ Broken fault) }
        ensures stops { IfErr result (λ fault. stopped self.new ≡ Some fault) }
    {
        let size = place_size(&self.place);
        if piece.len() < size {
            return self.take_part(piece);
        }
        match self.take_field(&piece[..size]) {
            Ok(()) => Ok(size),
            Err(fault) => Err(fault),
        }
    }

    // Takes bytes up to the end of a field, behind those that are held.
    fn take_part(&mut self, piece: &[u8]) -> Result<usize, JobFault>
        requires some { 0 < length piece.now }
        requires going { stopped self.old ≡ None }
        requires within { self.old.ended ≡ false }
        ensures moves { IfOk result (λ n. Moves self.old self.new (take n piece.now)) }
        ensures some { IfOk result (λ n. 0 < n) }
        ensures bound { IfOk result (λ n. n ≤ length piece.now) }
        ensures breach { IfErr result (λ fault. reached job_format (state self.old) piece.now ≡ Broken fault) }
        ensures stops { IfErr result (λ fault. stopped self.new ≡ Some fault) }
    {
        let size = place_size(&self.place);
        let count = (size - self.filled).min(piece.len());
        let mut held = self.held;
        put(&mut held, self.filled, &piece[..count]);
        if self.filled + count < size {
            self.held = held;
            self.filled += count;
            return Ok(count);
        }
        match self.take_field(&held[..size]) {
            Ok(()) => Ok(count),
            Err(fault) => Err(fault),
        }
    }

    // Takes a whole field, or stops at its fault.
    #[inline]
    fn take_field(&mut self, field: &[u8]) -> Result<(), JobFault>
        requires whole { length field.now ≡ place_size self.old.place }
        requires going { stopped self.old ≡ None }
        requires within { self.old.ended ≡ false }
        ensures takes { OnOk result (TakesField self.old self.new field.now) }
        ensures breach { IfErr result (λ fault. judge_place self.old.place field.now ≡ Err fault) }
        ensures stops { IfErr result (λ fault. stopped self.new ≡ Some fault) }
    {
        match judge(&self.place, field) {
            Ok(place) => {
                let item = item_at(&self.place, field);
                let site = site_at(&self.place, field);
                let need = need_at(&self.place, field);
                self.go_on(place, item, site, need);
                Ok(())
            }
            Err(fault) => {
                self.stop = Some(fault);
                Err(fault)
            }
        }
    }

    // Goes on at a place, with what the field before it completed.
    #[inline]
    fn go_on(
        &mut self,
        place: Place,
        item: Option<Item>,
        site: Option<Site>,
        need: Option<HeldNeed>,
    )
        requires field { (field : List ℕ) × Completes self.old.place place field item site need }
        requires via { has_room place ≡ true }
        requires within { self.old.ended ≡ false }
        ensures place { self.new.place ≡ place }
        ensures filled { self.new.filled ≡ 0 }
        ensures stop { self.new.stop ≡ self.old.stop }
        ensures items { self.new.frame.items ≡ self.old.frame.items ++ option_to_list item }
        ensures sites { self.new.sites.items ≡ self.old.sites.items ++ option_to_list site }
        ensures needs { self.new.needs.items ≡ self.old.needs.items ++ option_to_list need }
    {
        let _ = place_size(&place);
        let ended = ends_frame(&self.place, &place);
        self.ended = ended;
        keep(&mut self.frame, item);
        keep(&mut self.sites, site);
        keep(&mut self.needs, need);
        self.place = place;
        self.filled = 0;
    }

    /// The items of the frame that the last `feed` ended, at most 4,096; empty where it ended none.
    pub fn frame(&self) -> &[Item]
        ensures value { result.now ≡ lent self.now }
        ensures few { length result.now ≤ frame_limit }

        // All items that were given out are within the limits of a job, and there are none before the head is there.
        ensures light { (bytes : List ℕ) (given : List AnItem) → HasTaken self.now bytes given
            → (weight_of given ≤ weight_limit) × (length given ≤ item_limit) }
        ensures before { (bytes : List ℕ) (given : List AnItem) → HasTaken self.now bytes given
            → known_head self.now ≡ None → given ≡ [] }
    {
        if self.ended { &self.frame } else { &[] }
    }

    /// The head, Some exactly once it is there whole. It takes no memory.
    pub fn head(&self) -> Option<JobHead>
        ensures value { option_map head_of result ≡ known_head self.now }
        ensures begins { (bytes : List ℕ) (given : List AnItem) → HasTaken self.now bytes given
            → BeginsWith bytes (known_head self.now) }
    {
        JobHead::at(&self.place)
    }

    /// What the job was, at the end of its bytes; else the first breach, `Short` where they end inside the job, or
    /// `Memory`. It takes memory.
    pub fn finish(self, alloc: Global) -> Result<JobEnd, JobFault>
        ensures end { (bytes : List ℕ) (given : List AnItem) → HasTaken self bytes given
            → (result ≡ Err faults.Memory) ⊎ Ends bytes (known_head self) given result }
        ensures again { (fault : Fault) → stopped self ≡ Some fault → result ≡ Err fault }
    {
        if let Some(fault) = self.stop {
            return Err(fault);
        }
        match &self.place {
            Place::ReplayEnd { .. } => Ok(JobEnd::Replay),
            Place::SolveEnd { numbers } => {
                JobEnd::of_solve(alloc, numbers.nodes, self.sites, self.needs)
            }
            _ => Err(JobFault::Short),
        }
    }
}

// Where a job begins.
fn first_place() -> Place
    ensures { result ≡ job_start }
{
    Place::Head {
        step: HeadStep::Magic,
        numbers: HeadNumbers {
            kind: Kind::Replay,
            job: 0,
            levels: 0,
            rows: 0,
            width: 0,
            heap: 0,
            seed: 0,
        },
    }
}

// Behind so many items with so much weight, where so many are left of a frame.
#[inline]
fn place_in_frame(numbers: HeadNumbers, items: u32, weight: u64, left: u16) -> Place
    ensures { result ≡ place_in_frame numbers items weight left }
{
    let tally = Tally { items, weight };
    if left == 0 {
        return Place::Count { numbers, tally };
    }
    Place::Key {
        numbers,
        tally,
        left,
    }
}

// Whether a field that leads from one place to another ends a frame.
#[inline]
fn ends_frame(from: &Place, to: &Place) -> bool
    ensures { result ≡ ends_frame from.now to.now }
{
    matches!(from, Place::Weight { .. }) && matches!(to, Place::Count { .. })
}

// Keeps what was given behind what is kept, which has the room.
#[inline]
fn keep<T>(kept: &mut Vec<T>, given: Option<T>)
where
    T: Drop,
    requires { length kept.old.items + length (option_to_list given) ≤ vec_capacity kept.old }
    ensures items { kept.new.items ≡ kept.old.items ++ option_to_list given }
    ensures room { vec_capacity kept.old ≤ vec_capacity kept.new }
{
    if let Some(one) = given {
        kept.push(one).unwrap();
    }
}

// Each byte is below 256, as its type says.
fn check_bytes(bytes: &[u8])
    ensures { All (λ byte. byte < 256) bytes.now }
{
    let _ = bytes.len();
}

// The bytes from a place on.
#[inline]
fn rest_of(bytes: &[u8], taken: usize) -> &[u8]
    requires { taken ≤ length bytes.now }
    ensures { result.now ≡ drop taken bytes.now }
{
    &bytes[taken..]
}

// Puts a piece behind what is held.
#[inline]
fn put(held: &mut [u8], filled: usize, piece: &[u8])
    requires { filled + length piece.now ≤ length held.old }
    ensures size { length held.new ≡ length held.old }
    ensures bytes { take (filled + length piece.now) held.new ≡ take filled held.old ++ piece.now }
{
    held[filled..filled + piece.len()].copy_from_slice(piece);
}
