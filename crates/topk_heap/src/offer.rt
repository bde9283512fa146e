//! What an offer answers.
ghost use Rattle.std.specs.Prelude.{◌≡◌};
ghost use Rattle.std.specs.Option.{option_to_list};
ghost use Rattle.topk_heap.specs.Answer.{answer_of};

use flow_keys::FlowKey;
use std::cmp::Ordering;

/// What became of an offered key.
#[derive(Clone, Copy, Debug, PartialEq, Eq)]
pub enum Offer {
    /// The key is held, and no key was dropped.
    Kept,
    /// The key is held, and this other key, which was held before, was dropped.
    KeptDropping(FlowKey),
    /// The key was not held before and isn't held now.
    Refused,
}

impl Offer {
    /// What is answered to the offer of a key that had this key dropped, if one.
    pub(crate) fn of(key: &FlowKey, dropped: Option<FlowKey>) -> Offer
        ensures value { result ≡ answer_of key.now (option_to_list dropped) }
    {
        match dropped {
            None => Offer::Kept,
            Some(dropped) => match dropped.cmp(key) {
                Ordering::Equal => Offer::Refused,
                _ => Offer::KeptDropping(dropped),
            },
        }
    }
}
