//! What holds of every file.
ghost use Rattle.std.specs.Prelude.{◌≡◌, List, ℕ, Ok};
ghost use Rattle.topology.specs.Accepted.{IsAccepted};
ghost use Rattle.topology.specs.Topology.{Topo, topology_of};

/// An accepted file has 1 to 32 switches and 1 to 64 paths. Among each of them the names are valid and distinct, each
/// number is within its limits, and a path has prefixes of one family and a via of 1 to 8 distinct switches.
pub fn accepted_files()
    ensures each { (bytes : List ℕ) (topo : Topo) → topology_of bytes ≡ Ok topo → IsAccepted topo }
{}
