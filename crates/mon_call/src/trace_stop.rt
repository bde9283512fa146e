//! Where reading a trace stops.
ghost use Rattle.std.specs.Prelude.{◌≡◌};
ghost use Rattle.mon_call.specs.Trace.{status_at};

use crate::{Input, Status};
use pcap_reader::PcapStop;
use routed_trace::TraceFault;

/// The status with which a call ends at a stop of the reader of its trace.
pub fn trace_status(stop: PcapStop) -> Status
    ensures value { result ≡ status_at stop }
{
    match stop {
        PcapStop::Read => Status::ReadFault(Input::Trace),
        PcapStop::Bad(fault) => Status::Trace(TraceFault::Pcap(fault)),
        PcapStop::Memory => Status::Memory,
    }
}
