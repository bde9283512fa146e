//! Jobs as bytes.
ghost use Rattle.std.specs.Prelude.{◌≡◌, ◌≤◌, ◌++◌, List, ℕ, length, take, All, [], OnOk, OnErr};
ghost use Rattle.std.specs.List.{flat_map};
ghost use Rattle.byteorder.specs.Endian.{little_bytes};
ghost use Rattle.bound_certificate.specs.Limits.{IsWithin};
ghost use Rattle.hash_family.specs.Setting.{setting_of};
ghost use Rattle.job_format.specs.Job.{IsJob, IsLoad, IsSite, SpellsJob, SpellsSolve, AreFrames, item_bytes, frame_bytes, frame_limit, job_of};
ghost use Rattle.job_format.specs.Job.{replay_head, solve_head, site_bytes, need_bytes, problem_bytes};
ghost use Rattle.job_format.specs.declared.item.Item.{Item as AnItem};

use bound_certificate::{Need, Problem, Site};
use byteorder::{ByteOrder, LittleEndian};
use hash_family::Params;
use job_format::{Item, Job};
use mon_io::Memory;

/// Appends the spelling of a job within its limits. Unchanged on refusal. It takes memory.
pub fn write_job(job: &Job, out: &mut Vec<u8>) -> Result<(), Memory>
    requires within { IsJob (job_of job.now) }
    ensures written { OnOk result ((bytes : List ℕ) × SpellsJob (job_of job.now) bytes
        × (out.new.items ≡ out.old.items ++ bytes)) }
    ensures refused { OnErr result (out.new.items ≡ out.old.items) }
{
    let before = out.len();
    let Err(fault) = put_job(job, out) else {
        return Ok(());
    };
    out.truncate(before);
    Err(fault)
}

/// Appends the spelling of a solve job: its number, the nodes of its search, 1 to 4,096, and its problem. Unchanged on
/// refusal. It takes memory.
pub fn write_solve(job: u32, nodes: u32, problem: &Problem, out: &mut Vec<u8>) -> Result<(), Memory>
    requires some { 1 ≤ nodes }
    requires few { nodes ≤ 4096 }
    ensures written { OnOk result ((bytes : List ℕ)
        × SpellsSolve (record { number = job; nodes = nodes; problem = problem.now }) bytes
        × (out.new.items ≡ out.old.items ++ bytes)) }
    ensures refused { OnErr result (out.new.items ≡ out.old.items) }
{
    check_sites(problem.sites());
    check_needs(problem.needs());
    let before = out.len();
    let Err(fault) = put_solve(job, nodes as u16, problem, out) else {
        return Ok(());
    };
    out.truncate(before);
    Err(fault)
}

// The numbers of each site fit into their fields, as their types say.
fn check_sites(sites: &[Site])
    ensures { All IsSite sites.now }
{
    for site in sites {
        check_site(site);
    }
}

fn check_site(site: &Site)
    ensures { IsSite site.now }
{
    let (_capacity, _opening, _unit) = (site.capacity, site.opening, site.unit);
}

// The load of each need fits into its field, as its type says.
fn check_needs(needs: &[Need])
    ensures { All IsLoad needs.now }
{
    for need in needs {
        check_need(need);
    }
}

fn check_need(need: &Need)
    ensures { IsLoad need.now }
{
    let _load = need.load;
}

/// Appends the head of a replay job: its number and the numbers of the sketch. Unchanged on refusal. It takes memory.
pub fn write_head(job: u32, params: &Params, out: &mut Vec<u8>) -> Result<(), Memory>
    ensures written { OnOk result (out.new.items ≡ out.old.items ++ replay_head job (setting_of params.now)) }
    ensures refused { OnErr result (out.new.items ≡ out.old.items) }
{
    put(&replay_head(job, params), out)
}

/// Appends a frame of at most 4,096 items, and the closing count where there is none. Unchanged on refusal. It takes
/// memory.
pub fn write_frame(items: &[Item], out: &mut Vec<u8>) -> Result<(), Memory>
    requires few { length items.now ≤ frame_limit }
    ensures written { OnOk result (out.new.items ≡ out.old.items ++ frame_bytes items.now) }
    ensures refused { OnErr result (out.new.items ≡ out.old.items) }
{
    let before = out.len();
    let Err(fault) = put_frame(items, out) else {
        return Ok(());
    };
    out.truncate(before);
    Err(fault)
}

// The functions below only append: on refusal a part may stand behind what was there.

fn put_job(job: &Job, out: &mut Vec<u8>) -> Result<(), Memory>
    requires within { IsJob (job_of job.now) }
    ensures written { OnOk result ((bytes : List ℕ) × SpellsJob (job_of job.now) bytes
        × (out.new.items ≡ out.old.items ++ bytes)) }
    ensures kept { take (length out.old.items) out.new.items ≡ out.old.items }
{
    match job {
        Job::Replay { job, params, items } => put_replay(*job, params, items.as_slice(), out),
        Job::Solve {
            job,
            nodes,
            problem,
        } => put_solve(*job, *nodes as u16, problem, out),
    }
}

fn put_replay(job: u32, params: &Params, items: &[Item], out: &mut Vec<u8>) -> Result<(), Memory>
    ensures written { OnOk result ((frames : List (List AnItem)) × AreFrames frames items.now
        × (out.new.items ≡ out.old.items
        ++ (replay_head job (setting_of params.now) ++ (flat_map frame_bytes frames ++ frame_bytes [])))) }
    ensures kept { take (length out.old.items) out.new.items ≡ out.old.items }
{
    put(&replay_head(job, params), out)?;
    put_frames(items, out)?;
    put_frame(&[], out)
}

// Frames of 4,096 items, and one of the rest.
fn put_frames(items: &[Item], out: &mut Vec<u8>) -> Result<(), Memory>
    ensures written { OnOk result ((frames : List (List AnItem)) × AreFrames frames items.now
        × (out.new.items ≡ out.old.items ++ flat_map frame_bytes frames)) }
    ensures kept { take (length out.old.items) out.new.items ≡ out.old.items }
{
    let mut done = 0;
    while done < items.len() {
        let end = items.len().min(done + 4096);
        put_frame(&items[done..end], out)?;
        done = end;
    }
    Ok(())
}

fn put_frame(items: &[Item], out: &mut Vec<u8>) -> Result<(), Memory>
    requires few { length items.now ≤ frame_limit }
    ensures written { OnOk result (out.new.items ≡ out.old.items ++ frame_bytes items.now) }
    ensures kept { take (length out.old.items) out.new.items ≡ out.old.items }
{
    put(&(items.len() as u16).to_le_bytes(), out)?;
    put_items(items, out)
}

fn put_items(items: &[Item], out: &mut Vec<u8>) -> Result<(), Memory>
    ensures written { OnOk result (out.new.items ≡ out.old.items ++ flat_map item_bytes items.now) }
    ensures kept { take (length out.old.items) out.new.items ≡ out.old.items }
{
    for item in items {
        put(&item_bytes(item), out)?;
    }
    Ok(())
}

fn put_solve(job: u32, nodes: u16, problem: &Problem, out: &mut Vec<u8>) -> Result<(), Memory>
    ensures written { OnOk result (out.new.items
        ≡ out.old.items ++ (solve_head job ++ (little_bytes 2 nodes ++ problem_bytes problem.now))) }
    ensures kept { take (length out.old.items) out.new.items ≡ out.old.items }
{
    put(&solve_front(job, nodes), out)?;
    put_problem(problem, out)
}

fn put_problem(problem: &Problem, out: &mut Vec<u8>) -> Result<(), Memory>
    ensures written { OnOk result (out.new.items ≡ out.old.items ++ problem_bytes problem.now) }
    ensures kept { take (length out.old.items) out.new.items ≡ out.old.items }
{
    put(&[problem.site_count()], out)?;
    put_sites(problem.sites(), out)?;
    put(&[problem.need_count()], out)?;
    put_needs(problem.needs(), out)
}

fn put_sites(sites: &[Site], out: &mut Vec<u8>) -> Result<(), Memory>
    ensures written { OnOk result (out.new.items ≡ out.old.items ++ flat_map site_bytes sites.now) }
    ensures kept { take (length out.old.items) out.new.items ≡ out.old.items }
{
    for site in sites {
        put(&site_bytes(site), out)?;
    }
    Ok(())
}

fn put_needs(needs: &[Need], out: &mut Vec<u8>) -> Result<(), Memory>
    requires { All (λ need. length need.via ≤ 8) needs.now }
    ensures written { OnOk result (out.new.items ≡ out.old.items ++ flat_map need_bytes needs.now) }
    ensures kept { take (length out.old.items) out.new.items ≡ out.old.items }
{
    for need in needs {
        put_need(need, out)?;
    }
    Ok(())
}

fn put_need(need: &Need, out: &mut Vec<u8>) -> Result<(), Memory>
    requires { length need.now.via ≤ 8 }
    ensures written { OnOk result (out.new.items ≡ out.old.items ++ need_bytes need.now) }
    ensures kept { take (length out.old.items) out.new.items ≡ out.old.items }
{
    let via = need.via.as_slice();
    put(&need.load.to_le_bytes(), out)?;
    put(&[via.len() as u8], out)?;
    put(via, out)
}

// Unchanged on refusal.
fn put(bytes: &[u8], out: &mut Vec<u8>) -> Result<(), Memory>
    ensures written { OnOk result (out.new.items ≡ out.old.items ++ bytes.now) }
    ensures refused { OnErr result (out.new.items ≡ out.old.items) }
{
    match out.extend_from_slice(bytes) {
        Ok(()) => Ok(()),
        Err(_) => Err(Memory),
    }
}

fn replay_head(job: u32, params: &Params) -> [u8; 24]
    ensures { result ≡ replay_head job (setting_of params.now) }
{
    let [a, b, c, d] = job.to_le_bytes();
    let [e, f] = params.width.to_le_bytes();
    let [g, h] = params.heap.to_le_bytes();
    let [i, j, k, l, m, n, o, p] = params.seed.to_le_bytes();
    [
        0x55,
        0x4d,
        0x4a,
        0x42,
        1,
        0,
        a,
        b,
        c,
        d,
        params.levels,
        params.rows,
        e,
        f,
        g,
        h,
        i,
        j,
        k,
        l,
        m,
        n,
        o,
        p,
    ]
}

// The head of a solve job, and its nodes.
fn solve_front(job: u32, nodes: u16) -> [u8; 12]
    ensures { result ≡ solve_head job ++ little_bytes 2 nodes }
{
    let [a, b, c, d] = job.to_le_bytes();
    let [e, f] = nodes.to_le_bytes();
    [0x55, 0x4d, 0x4a, 0x42, 1, 1, a, b, c, d, e, f]
}

fn site_bytes(site: &Site) -> [u8; 10]
    ensures { result ≡ site_bytes site.now }
{
    let [a, b, c, d] = site.capacity.to_le_bytes();
    let [e, f, g, h] = site.opening.to_le_bytes();
    let [i, j] = site.unit.to_le_bytes();
    [a, b, c, d, e, f, g, h, i, j]
}

// The weight stands behind the eleven words of the key.
fn item_bytes(item: &Item) -> [u8; 48]
    ensures { result ≡ item_bytes item.now }
{
    let mut words = [item.weight; 12];
    words[..11].copy_from_slice(&item.key.words());
    let mut bytes = [0; 48];
    LittleEndian::write_u32_into(&words, &mut bytes);
    bytes
}
