//! Flow keys: which flow a captured frame belongs to, how the flow is written, and the prefixes of
//! addresses that hold it.
//!
//! - `link`: the links of pcap that are read
//! - `key`: `FlowKey`, eleven words
//! - `frame`: `key_of`, from a frame to the key of its packet
//! - `packet`: the keys of IPv4 and IPv6 packets
//! - `numbers`: big-endian numbers
//! - `text`: `key_text`, from a key to its text
//! - `prefix`: `Prefix`, an IP prefix, read from a text, and the keys that it holds
//! - `prefix_fault`: why a text is no prefix
//! - `routed`: `Routed`, what a packet becomes once it has a key and a route
//! - `side`: source or destination
//! - `address`: the texts of IPv4 and IPv6 addresses
//! - `numerals`: numbers as digits, with separators between them
//!
//! `specs/Frame.antt` says by byte positions which key a frame has; `specs/Text.antt` says the text of a key;
//! `specs/Prefix.antt` says, by the parts of a text between separators, which prefix it spells, and which keys
//! a prefix holds. No call takes memory. Two keys with one text are one key, as `one_text_one_key` says, and the text
//! of a whole address is the prefix that holds it alone, as `one_address` says.
#![tactic(auto)]

mod address;
mod frame;
mod key;
mod link;
mod numbers;
mod numerals;
mod packet;
mod prefix;
mod prefix_fault;
mod routed;
mod side;
#[cfg(test)]
mod tests;
mod text;

pub use frame::key_of;
pub use key::FlowKey;
pub use link::Link;
pub use prefix::{Prefix, one_address};
pub use prefix_fault::PrefixFault;
pub use routed::Routed;
pub use side::Side;
pub use text::{KeyText, key_text, one_text_one_key};
