//! The lines of a report: of its head, of an epoch, and of what changed from an epoch to the next.
//!
//! - `head`: `counts_text` and `sketch_text`, the lines of the packets and of the sketch's numbers
//! - `level_count`: `LevelCount`, the numbers of one level
//! - `block`: `epoch_text` and `brief_epoch_text`, all lines of an epoch, and those that name no level and no key
//! - `changes`: `change`, the sum of the changes and the changed keys
//! - `change_lines`: `change_text` and `brief_change_text`, their lines, and the line of the sum alone
//!
//! `specs/Head.antt` says the lines of the head, `specs/Block.antt` those of an epoch, `specs/Change.antt` what changed
//! and its lines, and `specs/Form.antt` which of the lines are written.
#![tactic(auto)]

mod block;
mod change_lines;
mod changes;
mod head;
mod level_count;

pub use block::{brief_epoch_text, epoch_text};
pub use change_lines::{brief_change_text, change_text};
pub use changes::change;
pub use head::{SketchNumbers, counts_text, sketch_text};
pub use level_count::LevelCount;
