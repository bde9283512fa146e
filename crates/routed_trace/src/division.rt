//! How a trace is divided into epochs, and what a packet counts.
ghost use Rattle.std.specs.Prelude.{◌≡◌, ◌≤◌, ◌+◌, IfSome, if◌then◌else◌};
ghost use Rattle.routed_trace.specs.Routed.{epoch_at, weight_with};

use pcap_reader::Packet;

/// How a trace is divided into epochs, and what a packet counts.
#[derive(Clone, Copy, Debug, PartialEq, Eq)]
pub struct Division {
    /// The seconds of an epoch, at least 1; None where the whole trace is one epoch.
    pub seconds: Option<u32>,
    /// Whether a packet counts its original length in bytes, in place of 1.
    pub bytes: bool,
}

impl Division {
    /// The epoch at so many seconds, where the first record has these: 0 before it.
    #[inline]
    pub(crate) fn epoch(&self, first: u32, seconds: u32) -> u32
        requires { IfSome self.now.seconds (λ length. 1 ≤ length) }
        ensures value { result ≡ epoch_at self.now.seconds first seconds }
    {
        match self.seconds {
            Some(length) => seconds.saturating_sub(first) / length,
            None => 0,
        }
    }

    /// What a packet counts.
    #[inline]
    pub(crate) fn weight(&self, packet: &Packet) -> u32
        ensures value { result ≡ weight_with self.now.bytes packet.now }
    {
        if self.bytes { packet.original } else { 1 }
    }

    /// The bytes that count towards the limit once a packet came: none where packets are counted.
    #[inline]
    pub(crate) fn bytes_with(&self, bytes: u64, packet: &Packet) -> u64
        requires { bytes ≤ 17592186044416 }
        ensures value { result ≡ if self.now.bytes then bytes + packet.now.original else 0 }
    {
        if self.bytes {
            bytes + u64::from(packet.original)
        } else {
            0
        }
    }
}
