//! What a field of a solve job behind its head is judged as.
ghost use Rattle.std.specs.Prelude.{◌≡◌, ◌<◌, ◌≤◌, true, length};
ghost use Rattle.job_format.specs.Places.{judge_solve, solve_size, behind_site, behind_need, behind_hop};
ghost use Rattle.job_format.specs.Rooms.{step_room, via_room};
ghost use Rattle.job_format.specs.declared.place.SolveStep.TheVariants as solves;
ghost use Rattle.job_format.specs.declared.place.Place.TheVariants.{Solve};

use crate::{JobFault, Place, SolveNumbers, SolveStep, Via};
use byteorder::{ByteOrder, LittleEndian};

/// How many bytes a field of a solve job has.
pub(crate) fn solve_size(step: SolveStep) -> usize
    ensures size { result ≡ solve_size step }
    ensures some { 0 < result }
    ensures few { result ≤ 44 }
{
    match step {
        SolveStep::Nodes => 2,
        SolveStep::Sites => 1,
        SolveStep::Site => 10,
        SolveStep::Needs => 1,
        SolveStep::Load => 2,
        SolveStep::Hops => 1,
        SolveStep::Hop => 1,
    }
}

/// What a field of a solve job is judged as.
pub(crate) fn judge_solve(
    step: SolveStep,
    numbers: &SolveNumbers,
    field: &[u8],
) -> Result<Place, JobFault>
    requires whole { length field.now ≡ solve_size step }
    requires room { step_room step numbers.now ≡ true }
    ensures { result ≡ judge_solve step numbers.now field.now }
{
    match step {
        SolveStep::Nodes => judge_nodes(numbers, field),
        SolveStep::Sites => judge_sites(numbers, field),
        SolveStep::Site => Ok(behind_site(numbers)),
        SolveStep::Needs => judge_needs(numbers, field),
        SolveStep::Load => judge_load(numbers, field),
        SolveStep::Hops => judge_hops(numbers, field),
        SolveStep::Hop => judge_hop(numbers, field),
    }
}

fn judge_nodes(numbers: &SolveNumbers, field: &[u8]) -> Result<Place, JobFault>
    requires { length field.now ≡ 2 }
    ensures { result ≡ judge_solve solves.Nodes numbers.now field.now }
{
    let nodes = LittleEndian::read_u16(field);
    if nodes < 1 || nodes > 4096 {
        return Err(JobFault::Shape);
    }
    let mut numbers = copied(numbers);
    numbers.nodes = nodes;
    Ok(at(SolveStep::Sites, numbers))
}

fn judge_sites(numbers: &SolveNumbers, field: &[u8]) -> Result<Place, JobFault>
    requires { length field.now ≡ 1 }
    ensures { result ≡ judge_solve solves.Sites numbers.now field.now }
{
    let sites = field[0];
    if sites < 1 || sites > 32 {
        return Err(JobFault::Shape);
    }
    let mut numbers = copied(numbers);
    numbers.sites = sites;
    numbers.sites_left = sites;
    Ok(at(SolveStep::Site, numbers))
}

fn judge_needs(numbers: &SolveNumbers, field: &[u8]) -> Result<Place, JobFault>
    requires { length field.now ≡ 1 }
    ensures { result ≡ judge_solve solves.Needs numbers.now field.now }
{
    let needs = field[0];
    if needs < 1 || needs > 64 {
        return Err(JobFault::Shape);
    }
    let mut numbers = copied(numbers);
    numbers.needs_left = needs;
    Ok(at(SolveStep::Load, numbers))
}

fn judge_load(numbers: &SolveNumbers, field: &[u8]) -> Result<Place, JobFault>
    requires { length field.now ≡ 2 }
    ensures { result ≡ judge_solve solves.Load numbers.now field.now }
{
    let load = LittleEndian::read_u16(field);
    if load < 1 {
        return Err(JobFault::Shape);
    }
    let mut numbers = copied(numbers);
    numbers.load = load;
    Ok(at(SolveStep::Hops, numbers))
}

fn judge_hops(numbers: &SolveNumbers, field: &[u8]) -> Result<Place, JobFault>
    requires { length field.now ≡ 1 }
    ensures { result ≡ judge_solve solves.Hops numbers.now field.now }
{
    let hops = field[0];
    if hops < 1 || hops > 8 {
        return Err(JobFault::Shape);
    }
    let mut numbers = copied(numbers);
    numbers.via = Via::new();
    numbers.hops_left = hops;
    Ok(at(SolveStep::Hop, numbers))
}

fn judge_hop(numbers: &SolveNumbers, field: &[u8]) -> Result<Place, JobFault>
    requires whole { length field.now ≡ 1 }
    requires room { via_room numbers.now ≡ true }
    ensures { result ≡ judge_solve solves.Hop numbers.now field.now }
{
    let site = field[0];
    if site >= numbers.sites {
        return Err(JobFault::Shape);
    }
    if numbers.via.has(site) {
        return Err(JobFault::Shape);
    }
    Ok(behind_hop(numbers, site))
}

fn behind_site(numbers: &SolveNumbers) -> Place
    ensures { result ≡ behind_site numbers.now }
{
    let mut numbers = copied(numbers);
    if numbers.sites_left <= 1 {
        numbers.sites_left = 0;
        return at(SolveStep::Needs, numbers);
    }
    numbers.sites_left -= 1;
    at(SolveStep::Site, numbers)
}

fn behind_hop(numbers: &SolveNumbers, site: u8) -> Place
    requires room { via_room numbers.now ≡ true }
    ensures { result ≡ behind_hop numbers.now site }
{
    let mut next = copied(numbers);
    if next.hops_left <= 1 {
        next.load = 0;
        next.via = Via::new();
        next.hops_left = 0;
        return behind_need(next);
    }
    next.via = numbers.via.with(site);
    next.hops_left -= 1;
    at(SolveStep::Hop, next)
}

fn behind_need(mut numbers: SolveNumbers) -> Place
    ensures { result ≡ behind_need numbers }
{
    if numbers.needs_left <= 1 {
        numbers.needs_left = 0;
        return Place::SolveEnd { numbers };
    }
    numbers.needs_left -= 1;
    at(SolveStep::Load, numbers)
}

fn at(step: SolveStep, numbers: SolveNumbers) -> Place
    ensures { result ≡ Solve step numbers }
{
    Place::Solve { step, numbers }
}

// The same numbers once more.
fn copied(numbers: &SolveNumbers) -> SolveNumbers
    ensures { result ≡ numbers.now }
{
    SolveNumbers {
        job: numbers.job,
        nodes: numbers.nodes,
        sites: numbers.sites,
        sites_left: numbers.sites_left,
        needs_left: numbers.needs_left,
        load: numbers.load,
        via: numbers.via.copied(),
        hops_left: numbers.hops_left,
    }
}
