//! The items of a share.
ghost use Rattle.std.specs.Prelude.{◌≡◌, ◌≤◌, ◌<◌, ℕ, List, All, IfOk, length, map};
ghost use Rattle.replay_jobs.specs.Grouped.{items_of, job_number};
ghost use Rattle.path_shares.specs.Shares.{job_item};

use flow_keys::Routed;
use job_format::Item;
use mon_io::Memory;
use std::alloc::Global;

/// The number of each packet's job, in the order of the trace: jobs are numbered by epoch, and then by the switch to
/// which a placement gives the packet's path. It takes memory, two bytes a packet.
pub(crate) fn job_numbers(
    alloc: Global,
    switches: u8,
    placement: &[u8],
    routed: &[Routed],
) -> Result<Vec<u16>, Memory>
    requires few { switches ≤ 32 }
    requires paths { All (λ packet. packet.path < length placement.now) routed.now }
    ensures numbers { IfOk result (λ numbers. numbers.items ≡ map (job_number switches placement.now) routed.now) }
{
    let Ok(mut numbers) = Vec::with_capacity(alloc, routed.len()) else {
        return Err(Memory);
    };
    for packet in routed {
        let number = job_number(switches, placement, packet);
        if numbers.push(number).is_err() {
            return Err(Memory);
        }
    }
    Ok(numbers)
}

// The number of a packet's job.
#[inline]
fn job_number(switches: u8, placement: &[u8], packet: &Routed) -> u16
    requires few { switches ≤ 32 }
    requires path { packet.now.path < length placement.now }
    ensures { result ≡ job_number switches placement.now packet.now }
{
    let switch = placement[usize::from(packet.path)];
    u16::from(packet.epoch) * u16::from(switches) + u16::from(switch)
}

/// The items of the packets that are of a job, in the order of the trace. It takes memory.
pub(crate) fn items_of(
    alloc: Global,
    numbers: &[u16],
    routed: &[Routed],
    number: u16,
) -> Result<Vec<Item>, Memory>
    requires shape { length numbers.now ≡ length routed.now }
    ensures items { IfOk result (λ items. (switches : ℕ) (placement : List ℕ)
        → numbers.now ≡ map (job_number switches placement) routed.now
        → items.items ≡ items_of switches placement number routed.now) }
{
    let mut items = Vec::new(alloc);
    for index in 0..routed.len() {
        if numbers[index] == number {
            let item = item_of(&routed[index]);
            if items.push(item).is_err() {
                return Err(Memory);
            }
        }
    }
    Ok(items)
}

// A routed packet as a job has it.
#[inline]
fn item_of(packet: &Routed) -> Item
    ensures { result ≡ job_item packet.now }
{
    Item {
        key: packet.key,
        weight: packet.weight,
    }
}
