//! Certificates of a least cost as text and as bytes.
//!
//! - `text`, `bytes`: a tree as text and as bytes; `fault`: why a text or bytes are no tree's
//! - `numeral`, `counted_numbers`, `line`: a node, as a `node_head`, from its line; `cursor`, `node_lines`,
//!   `read_text`: a text line by line, a tree from its lines, and from a whole text
//! - `node_bytes`, `read_bytes`: a node, as a `node_head`, and a tree from bytes; `laws`: that trees are read back, and
//!   each text and all bytes as one thing
//!
//! `specs/Text.antt` and `specs/Bytes.antt` say how a tree is spelled, `specs/ReadText.antt` and
//! `specs/ReadBytes.antt` how it is read. The writers and the readers take memory.
#![tactic(auto)]

mod bytes;
mod counted_numbers;
mod cursor;
mod fault;
mod laws;
mod line;
mod node_bytes;
mod node_head;
mod node_lines;
mod numeral;
mod read_bytes;
mod read_text;
mod text;

pub use bytes::tree_bytes;
pub use fault::{CertFault, TreeBytesFault};
pub use laws::{one_reading, trees_are_read_back};
pub use read_bytes::read_tree_bytes;
pub use read_text::read_tree_text;
pub use text::tree_text;
