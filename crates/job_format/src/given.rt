//! The item, site or need that a field of a job completes.
ghost use Rattle.std.specs.Prelude.{◌≡◌, true, length, map};
ghost use Rattle.std.specs.Option.{option_to_list};
ghost use Rattle.job_format.specs.Given.{item_gives, need_by, need_gives, site_gives, site_of};
ghost use Rattle.job_format.specs.Held.{need_of};
ghost use Rattle.job_format.specs.Places.{place_size};
ghost use Rattle.job_format.specs.Rooms.{has_room, via_room};

use crate::{HeldNeed, Item, Place, SolveNumbers, SolveStep};
use bound_certificate::Site;
use byteorder::{ByteOrder, LittleEndian};

/// The item that a field completes, which the weight behind its key does; else None. It takes no memory.
#[inline]
#[tactic(auto, unfolding(crate::specs::Given::item_gives))]
pub fn item_at(place: &Place, field: &[u8]) -> Option<Item>
    requires whole { length field.now ≡ place_size place.now }
    ensures value { option_to_list result ≡ item_gives place.now field.now }
{
    match place {
        Place::Weight {
            numbers: _,
            tally: _,
            left: _,
            key,
        } => Some(Item {
            key: *key,
            weight: LittleEndian::read_u32(field),
        }),
        _ => None,
    }
}

/// The site that a field completes; else None. It takes no memory.
#[inline]
#[tactic(auto, unfolding(crate::specs::Given::site_gives))]
pub fn site_at(place: &Place, field: &[u8]) -> Option<Site>
    requires whole { length field.now ≡ place_size place.now }
    ensures value { option_to_list result ≡ site_gives place.now field.now }
{
    match place {
        Place::Solve {
            step: SolveStep::Site,
            numbers: _,
        } => Some(site_of(field)),
        _ => None,
    }
}

fn site_of(field: &[u8]) -> Site
    requires { length field.now ≡ 10 }
    ensures { result ≡ site_of field.now }
{
    Site {
        capacity: LittleEndian::read_u32(field),
        opening: LittleEndian::read_u32(&field[4..]),
        unit: LittleEndian::read_u16(&field[8..]),
    }
}

/// The need that a field completes, which the last number of its via does; else None. It takes no memory.
#[inline]
#[tactic(auto, unfolding(crate::specs::Given::need_gives))]
pub fn need_at(place: &Place, field: &[u8]) -> Option<HeldNeed>
    requires whole { length field.now ≡ place_size place.now }
    requires room { has_room place.now ≡ true }
    ensures value { map need_of (option_to_list result) ≡ need_gives place.now field.now }
{
    match place {
        Place::Solve {
            step: SolveStep::Hop,
            numbers,
        } => need_by(numbers, field[0]),
        _ => None,
    }
}

// The need that ends with this number, if no other is left.
fn need_by(numbers: &SolveNumbers, site: u8) -> Option<HeldNeed>
    requires room { via_room numbers.now ≡ true }
    ensures value { map need_of (option_to_list result) ≡ need_by numbers.now site }
{
    if numbers.hops_left > 1 {
        return None;
    }
    Some(HeldNeed {
        load: numbers.load,
        via: numbers.via.with(site),
    })
}
