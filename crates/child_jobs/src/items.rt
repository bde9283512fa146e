//! The items of a frame that stand whole in a piece.
ghost use Rattle.std.specs.Prelude.{◌≡◌, ◌≤◌, ◌+◌, ℕ, take, length, vec_capacity, IfSome};
ghost use Rattle.job_format.specs.declared.place.HeadNumbers.{HeadNumbers};
ghost use Rattle.child_jobs.specs.Items.{IsItemBehind, ReadsItems, place_in_frame};

use byte_format::key_at;
use byteorder::{ByteOrder, LittleEndian};
use job_format::Item;

/// The most that the items of a job weigh together.
const MOST_WEIGHT: u64 = 1 << 44;

/// What is left of a frame behind items of it, the weight so far, and how many bytes the items take.
#[derive(Clone, Copy)]
pub(crate) struct Run {
    pub weight: u64,
    pub left: u16,
    pub taken: usize,
}

/// Reads the items of a frame that stand whole in a piece, up to one that isn't right.
#[inline]
pub(crate) fn read_items(weight: u64, left: u16, piece: &[u8], frame: &mut Vec<Item>) -> Run
    requires few { length frame.old.items + left ≤ 4096 }
    requires room { 4096 ≤ vec_capacity frame.old }
    ensures bound { result.taken ≤ length piece.now }
    ensures reads { (h : HeadNumbers) (items : ℕ)
        → ReadsItems (place_in_frame h items weight left) (place_in_frame h items result.weight result.left)
        (take result.taken piece.now) frame.old.items frame.new.items }
    ensures few { length frame.new.items + result.left ≡ length frame.old.items + left }
    ensures room { 4096 ≤ vec_capacity frame.new }
{
    let mut weight = weight;
    let mut left = left;
    let mut taken = 0;
    while left > 0 && piece.len() - taken >= 48 {
        let Some(item) = item_behind(weight, &piece[taken..taken + 48]) else {
            return Run {
                weight,
                left,
                taken,
            };
        };
        weight += u64::from(item.weight);
        frame.push(item).unwrap();
        left -= 1;
        taken += 48;
    }
    Run {
        weight,
        left,
        taken,
    }
}

// The item that these bytes are, if it is right behind so much weight.
#[inline]
fn item_behind(before: u64, bytes: &[u8]) -> Option<Item>
    requires whole { length bytes.now ≡ 48 }
    ensures item { IfSome result (λ item. IsItemBehind before bytes.now item) }
{
    let key = key_at(&bytes[..44])?;
    let weight = LittleEndian::read_u32(&bytes[44..]);
    if before > MOST_WEIGHT || u64::from(weight) > MOST_WEIGHT - before {
        return None;
    }
    Some(Item { key, weight })
}
