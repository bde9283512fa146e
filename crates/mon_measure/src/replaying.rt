//! The phase in which children sketch the shares of the switches, and the report on what they sketched.
ghost use Rattle.std.specs.Prelude.{◌≡◌, ◌≤◌, ◌^◌, ◌<◌, ℕ, Some, None, IsTrue, IfOk, false};
ghost use Rattle.bound_certificate.specs.Placement.{fits};
ghost use Rattle.bound_certificate.specs.Problem.{site_count};
ghost use Rattle.hash_family.specs.Setting.{setting_of};
ghost use Rattle.measure_report.specs.Run.{form_of};
ghost use Rattle.mon_measure.specs.Measuring.{IsMeasuring, IsSketching};
ghost use Rattle.measure_answers.specs.Reported.{ReportsShares, shares_of};
ghost use Rattle.measure_answers.specs.Text.{epochs_of, packets_of, sketch_setting};
ghost use Rattle.mon_trace.specs.Reading.{IsRead};
ghost use Rattle.replay_jobs.specs.ReplayJobs.{replay_state};
ghost use Rattle.replay_jobs.specs.Replays.{IsReplayWork};
ghost use Rattle.topology.specs.Accepted.{IsAccepted};

use crate::Measuring;
use bound_certificate::Placement;
use crew::Spawner;
use hash_family::Params;
use measure_report::{Counts, Run, write_report};
use mon_call::{Phase, Setting, Status, finish};
use mon_io::{Memory, Sink};
use mon_place::stop_status;
use mon_trace::{RoutedTrace, counts_of};
use replay_jobs::ReplayJobs;
use replay_phase::replay;
use std::alloc::Global;
use topology::Topology;

/// Has children sketch the shares of the switches, and writes the report on what these were merged to.
pub(crate) fn report_shares<S: Spawner, K: Sink>(
    alloc: Global,
    network: &Topology,
    placement: &Placement,
    bound: i128,
    read: RoutedTrace,
    measuring: &Measuring,
    crew: &mut S,
    sink: &mut K,
) -> Status
    requires measuring { IsMeasuring measuring.now }
    requires fits { IsTrue (fits network.now.problem placement.now.sites) }
    requires accepted { IsAccepted network.now }
    requires read { IsRead None (Some network.now) measuring.now.setting.division read }
    requires issued { (S.state crew.old).issued < 2 ^ 31 }
    requires none_out { (ticket : ℕ) → (S.state crew.old).is_out ticket ≡ false }
    ensures reports { (r : IsRead None (Some network.now) measuring.now.setting.division read) →
        ReportsShares (shares_of (form_of measuring.now.brief) measuring.now.setting measuring.now.solving network.now
        r.header r.members placement.now.sites bound)
        (S.state crew.old) (S.state crew.new) (K.state sink.old) (K.state sink.new) result }
    ensures later { (K.state sink.old).faults ≤ (K.state sink.new).faults }
{
    let setting = &measuring.setting;
    let counts = counts_of(&read, setting.division.bytes);
    let Ok(jobs) = shares_jobs(alloc, network, placement, read, setting) else {
        return Status::Memory;
    };
    let solving = measuring.solving;
    let merged = match replay(alloc, crew, jobs, solving.window, solving.restarts) {
        Ok(merged) => merged,
        Err(stop) => return stop_status(Phase::Replay, stop),
    };
    let run = Run::new(
        network,
        params_of(setting),
        counts,
        placement,
        bound,
        setting.heavy,
        measuring.brief,
    );
    match write_report(alloc, &run, &merged) {
        Ok(text) => finish(sink, text.as_str()),
        Err(_) => Status::Memory,
    }
}

// The jobs to sketch the shares. The list of packets is given back.
fn shares_jobs(
    alloc: Global,
    network: &Topology,
    placement: &Placement,
    read: RoutedTrace,
    setting: &Setting,
) -> Result<ReplayJobs, Memory>
    requires setting { IsSketching setting.now }
    requires fits { IsTrue (fits network.now.problem placement.now.sites) }
    requires accepted { IsAccepted network.now }
    requires read { IsRead None (Some network.now) setting.now.division read }
    ensures work { (r : IsRead None (Some network.now) setting.now.division read) → IfOk result (λ jobs. IsReplayWork
        (sketch_setting setting.now) (epochs_of setting.now r.header r.members) (site_count network.now.problem)
        placement.now.sites (packets_of setting.now network.now r.header r.members) (replay_state jobs).work) }
    ensures some { IfOk result (λ jobs. 1 ≤ (replay_state jobs).work.count) }
    ensures few { IfOk result (λ jobs. (replay_state jobs).work.count ≤ 256) }
    ensures fresh { IfOk result (λ jobs. (job : ℕ) → (replay_state jobs).has_taken job ≡ false) }
{
    let switches = network.problem().site_count();
    let epochs = read.counts.epochs as u8;
    ReplayJobs::new(
        alloc,
        params_of(setting),
        epochs,
        switches,
        placement,
        &read.routed,
    )
}

// The numbers of the sketches.
fn params_of(setting: &Setting) -> Params
    requires { IsSketching setting.now }
    ensures { setting_of result ≡ sketch_setting setting.now }
{
    let (levels, rows, width) = (setting.levels, setting.rows, setting.width);
    Params::new(levels, rows, width, setting.heap, setting.seed).unwrap()
}
