//! The number and the line of a status.
ghost use Rattle.std.specs.Prelude.{◌≡◌, IfOk, string_bytes};
ghost use Rattle.mon_command.specs.Status.{number_of, line_of, job_line, pcap_line, phase_word, spent_line, trace_line, usage_line};

use crate::certificate_line::certificate_text;
use crate::topology_line::topology_text;
use job_format::JobFault;
use mon_call::{Input, Phase, Status};
use mon_io::Memory;
use mon_words::UsageFault;
use pcap_reader::PcapFault;
use replay_core::Bad;
use routed_trace::TraceFault;
use std::alloc::{AllocError, Global};

/// The number with which the program ends: 0 where the work was done.
pub fn status_number(status: &Status) -> u8
    ensures { result ≡ number_of status.now }
{
    match status {
        Status::Done => 0,
        Status::Usage(_) => 2,
        Status::ReadFault(_) => 3,
        Status::Topology(_) => 4,
        Status::Trace(_) => 5,
        Status::Infeasible => 6,
        Status::SearchBudget { .. } => 7,
        Status::RestartsSpent { .. } => 8,
        Status::StaleLimit { .. } => 9,
        Status::SinkFault => 10,
        Status::Certificate(_) => 11,
        Status::Job(_) => 12,
        Status::Memory => 13,
    }
}

/// The line for standard error, without a line feed; empty where the work was done.
pub fn status_line(alloc: Global, status: &Status) -> Result<String, Memory>
    ensures { IfOk result (λ line. string_bytes line ≡ line_of status.now) }
{
    let line = match status {
        Status::Done => String::from_str(alloc, ""),
        Status::Usage(fault) => usage_text(alloc, *fault),
        Status::ReadFault(Input::Topology) => {
            String::from_str(alloc, "univmon: cannot read topology")
        }
        Status::ReadFault(Input::Trace) => String::from_str(alloc, "univmon: cannot read trace"),
        Status::ReadFault(Input::Tree) => String::from_str(alloc, "univmon: cannot read tree"),
        Status::ReadFault(Input::Job) => String::from_str(alloc, "univmon: cannot read job"),
        Status::Topology(fault) => topology_text(alloc, *fault),
        Status::Trace(fault) => trace_text(alloc, *fault),
        Status::Infeasible => String::from_str(alloc, "univmon: infeasible"),
        Status::SearchBudget { nodes } => {
            format!(in alloc; "univmon: search budget {nodes} spent")
        }
        Status::RestartsSpent { phase, job, bad } => spent_text(alloc, *phase, *job, *bad),
        Status::StaleLimit { phase } => {
            let phase = phase_word(*phase);
            format!(in alloc; "univmon: too many stale events: {phase}")
        }
        Status::Certificate(fault) => certificate_text(alloc, *fault),
        Status::Job(fault) => job_text(alloc, *fault),
        Status::SinkFault => String::from_str(alloc, "univmon: cannot write"),
        Status::Memory => String::from_str(alloc, "univmon: out of memory"),
    };
    match line {
        Ok(line) => Ok(line),
        Err(_) => Err(Memory),
    }
}

fn usage_text(alloc: Global, fault: UsageFault) -> Result<String, AllocError>
    ensures { IfOk result (λ line. string_bytes line ≡ usage_line fault) }
{
    match fault {
        UsageFault::NoCommand => String::from_str(alloc, "univmon: usage: no command"),
        UsageFault::UnknownCommand => String::from_str(alloc, "univmon: usage: unknown command"),
        UsageFault::Refused => String::from_str(alloc, "univmon: usage: words refused"),
        UsageFault::Value(option) => {
            let name = option.name();
            format!(in alloc; "univmon: usage: value of {name}")
        }
    }
}

fn phase_word(phase: Phase) -> &'static str
    ensures { result.now ≡ phase_word phase }
{
    match phase {
        Phase::Solve => "solve",
        Phase::Replay => "replay",
    }
}

#[tactic(auto, unfolding(crate::specs::Status::spent_line))]
fn spent_text(alloc: Global, phase: Phase, job: u32, bad: Bad) -> Result<String, AllocError>
    ensures { IfOk result (λ line. string_bytes line ≡ spent_line phase job bad) }
{
    let phase = phase_word(phase);
    let (start, feed, died, reply) = (bad.start, bad.feed, bad.died, bad.reply);
    format!(in alloc;
        "univmon: restarts spent: {phase} job {job}: start {start} feed {feed} died {died} reply {reply}"
    )
}

fn trace_text(alloc: Global, fault: TraceFault) -> Result<String, AllocError>
    ensures { IfOk result (λ line. string_bytes line ≡ trace_line fault) }
{
    match fault {
        TraceFault::Pcap(fault) => pcap_text(alloc, fault),
        TraceFault::Epochs { number, index } => {
            format!(in alloc; "univmon: trace: epoch {index} at record {number}")
        }
        TraceFault::Weight { number } => {
            format!(in alloc; "univmon: trace: weight at record {number}")
        }
    }
}

fn job_text(alloc: Global, fault: JobFault) -> Result<String, AllocError>
    ensures { IfOk result (λ line. string_bytes line ≡ job_line fault) }
{
    match fault {
        JobFault::Short => String::from_str(alloc, "univmon: job: short"),
        JobFault::Magic => String::from_str(alloc, "univmon: job: magic"),
        JobFault::Version => String::from_str(alloc, "univmon: job: version"),
        JobFault::Shape => String::from_str(alloc, "univmon: job: shape"),
        JobFault::Extra => String::from_str(alloc, "univmon: job: extra"),
        JobFault::Memory => String::from_str(alloc, "univmon: out of memory"),
    }
}

fn pcap_text(alloc: Global, fault: PcapFault) -> Result<String, AllocError>
    ensures { IfOk result (λ line. string_bytes line ≡ pcap_line fault) }
{
    match fault {
        PcapFault::ShortHeader { at } => {
            format!(in alloc; "univmon: trace: short header at {at}")
        }
        PcapFault::NotClassic { magic } => classic_text(alloc, magic),
        PcapFault::Version { major, minor } => {
            format!(in alloc; "univmon: trace: version {major} {minor}")
        }
        PcapFault::Link { number } => format!(in alloc; "univmon: trace: link {number}"),
        PcapFault::ShortRecord { at } => {
            format!(in alloc; "univmon: trace: short record at {at}")
        }
        PcapFault::LongRecord { at, length } => {
            format!(in alloc; "univmon: trace: long record at {at} length {length}")
        }
        PcapFault::TooMany => String::from_str(alloc, "univmon: trace: too many records"),
    }
}

// The line of a magic number, by its eight digits.
#[tactic(auto, unfolding(crate::specs::Status::eight_digits))]
fn classic_text(alloc: Global, magic: u32) -> Result<String, AllocError>
    ensures { IfOk result (λ line. string_bytes line ≡ pcap_line (PcapFault.NotClassic magic)) }
{
    let (a, b, c, d) = (
        magic / 268_435_456,
        magic / 16_777_216 % 16,
        magic / 1_048_576 % 16,
        magic / 65536 % 16,
    );
    let (e, f, g, h) = (
        magic / 4096 % 16,
        magic / 256 % 16,
        magic / 16 % 16,
        magic % 16,
    );
    format!(in alloc; "univmon: trace: not classic {a:x}{b:x}{c:x}{d:x}{e:x}{f:x}{g:x}{h:x}")
}
