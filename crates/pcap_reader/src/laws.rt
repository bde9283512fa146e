//! What holds of every list of bytes.
ghost use Rattle.std.specs.Prelude.{◌≡◌, ◌⊎◌, ◌↔◌, ◌<◌, ℕ, List, None};
ghost use Rattle.pcap_reader.specs.Laws.{HasTrace, HasFault, StartsRecord};
ghost use Rattle.pcap_reader.specs.Trace.{Record, IsTrace, Broken, fault_at};
ghost use Rattle.pcap_reader.specs.declared.fault.PcapFault.{PcapFault};
ghost use Rattle.pcap_reader.specs.declared.header.Header.{Header};
ghost use Rattle.pcap_reader.specs.declared.order.Order.{Order};

/// Bytes are a trace of one list of records, or they come to one fault behind one list of records; never both.
/// Behind fewer than 1,048,576 records there is no fault exactly where a record begins.
pub fn one_reading()
    ensures one_trace { (bytes : List ℕ) (header other : Header) (xs ys : List Record) →
        IsTrace bytes header xs → IsTrace bytes other ys → (header ≡ other) × (xs ≡ ys) }
    ensures one_fault { (bytes : List ℕ) (xs ys : List Record) (fault other : PcapFault) →
        Broken bytes xs fault → Broken bytes ys other → (xs ≡ ys) × (fault ≡ other) }
    ensures not_both { (bytes : List ℕ) (header : Header) (xs ys : List Record) (fault : PcapFault) →
        IsTrace bytes header xs → Broken bytes ys fault → ⊥ }
    ensures always_one { (bytes : List ℕ) → HasTrace bytes ⊎ HasFault bytes }
    ensures no_fault { (order : Order) (count offset : ℕ) (rest : List ℕ) → count < 1048576 →
        (fault_at order count offset rest ≡ None) ↔ StartsRecord order rest }
{}
