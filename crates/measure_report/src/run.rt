//! What is reported beside the sketches of the epochs.
ghost use Rattle.std.specs.Prelude.{◌≡◌, ◌≤◌, ◌<◌, IsTrue};
ghost use Rattle.hash_family.specs.Setting.{setting_of};
ghost use Rattle.bound_certificate.specs.Placement.{cost, fits};
ghost use Rattle.change_report.specs.Head.{setting_in};
ghost use Rattle.measure_report.specs.Run.{form_of, packets_in};

use crate::Counts;
use bound_certificate::{Placement, cost_of};
use change_report::SketchNumbers;
use hash_family::Params;
use std::marker::Model;
use topology::Topology;

/// What a report says beside the sketches of the epochs.
#[derive(Drop)]
pub struct Run<'a> {
    topology: &'a Topology,
    params: Params,
    counts: Counts,
    placement: &'a Placement,
    bound: i128,
    heavy: u32,
    brief: bool,
}

impl<'a> Model for Run<'a> {
    ghost use Rattle.hash_family.specs.Setting.{setting_of};
    ghost use Rattle.measure_report.specs.Run.{IsReported, Reported, form_of};

    ghost Value = { Reported };

    ghost view = { λ run. record {
      form = form_of run.brief;
      topo = run.topology.now;
      setting = setting_of run.params;
      counts = run.counts;
      placement = run.placement.now.sites;
      bound = run.bound;
      heavy = run.heavy;
    } };

    ghost invariant = { λ run. IsReported (record {
      form = form_of run.brief;
      topo = run.topology.now;
      setting = setting_of run.params;
      counts = run.counts;
      placement = run.placement.now.sites;
      bound = run.bound;
      heavy = run.heavy;
    }) };
}

impl<'a> Run<'a> {
    /// A placement of the topology's paths, which fits, with a bound below the cost of every placement; the numbers
    /// of the sketches and of the trace, which has 1 to 8 epochs; the thousandths (0 to 1,000) of the weight that a
    /// heavy key has at least; and whether the few lines are written that name no path, no switch and no key. Takes
    /// no memory.
    pub fn new(
        topology: &'a Topology,
        params: Params,
        counts: Counts,
        placement: &'a Placement,
        bound: i128,
        heavy: u32,
        brief: bool,
    ) -> Run<'a>
        requires fits { IsTrue (fits topology.now.problem placement.now.sites) }
        requires some { 1 ≤ counts.epochs }
        requires few { counts.epochs ≤ 8 }
        requires heavy { heavy ≤ 1000 }
        ensures value { result ≡ record {
          form = form_of brief;
          topo = topology.now;
          setting = setting_of params;
          counts = counts;
          placement = placement.now.sites;
          bound = bound;
          heavy = heavy;
        } }
    {
        Run {
            topology,
            params,
            counts,
            placement,
            bound,
            heavy,
            brief,
        }
    }

    /// Whether the few lines are written.
    pub(crate) fn is_brief(&self) -> bool
        ensures form { self.now.form ≡ form_of result }
    {
        self.brief
    }

    pub(crate) fn topology(&self) -> &Topology
        ensures topo { result.now ≡ self.now.topo }
    {
        self.topology
    }

    /// The seed of the hash functions.
    pub(crate) fn seed(&self) -> u64
        ensures value { result ≡ self.now.setting.seed }
    {
        self.params.seed
    }

    /// The numbers of the sketches.
    pub(crate) fn numbers(&self) -> SketchNumbers
        ensures value { setting_in result ≡ self.now.setting }
    {
        SketchNumbers {
            seed: self.params.seed,
            levels: self.params.levels,
            rows: self.params.rows,
            width: self.params.width,
            heap: self.params.heap,
        }
    }

    /// The numbers of the trace.
    pub(crate) fn counts(&self) -> &Counts
        ensures value { result.now ≡ self.now.counts }
    {
        &self.counts
    }

    /// How many epochs there are.
    pub(crate) fn epochs(&self) -> u8
        ensures value { result ≡ self.now.counts.epochs }
        ensures few { result ≤ 8 }
    {
        self.counts.epochs
    }

    /// The packets of an epoch.
    pub(crate) fn packets_in(&self, epoch: u8) -> u32
        requires { epoch < 8 }
        ensures value { result ≡ packets_in self.now epoch }
    {
        self.counts.epoch_packets[usize::from(epoch)]
    }

    /// The switch of each path.
    pub(crate) fn placement(&self) -> &Placement
        ensures sites { result.now.sites ≡ self.now.placement }
        ensures fits { IsTrue (fits self.now.topo.problem self.now.placement) }
    {
        self.placement
    }

    /// The cost of the placement.
    pub(crate) fn cost(&self) -> u64
        ensures value { result ≡ cost self.now.topo.problem self.now.placement }
    {
        cost_of(self.topology.problem(), self.placement.sites.as_slice())
    }

    /// The bound below the cost of every placement.
    pub(crate) fn bound(&self) -> i128
        ensures value { result ≡ self.now.bound }
    {
        self.bound
    }

    /// The thousandths of the weight that a heavy key has at least.
    pub(crate) fn heavy(&self) -> u32
        ensures value { result ≡ self.now.heavy }
        ensures bound { result ≤ 1000 }
    {
        self.heavy
    }
}
