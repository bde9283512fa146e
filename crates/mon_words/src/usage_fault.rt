//! Why the words of a call are refused.
use crate::Opt;

/// Why the words of a call are refused.
#[derive(Clone, Copy, Debug, PartialEq, Eq)]
pub enum UsageFault {
    /// There is no word.
    NoCommand,
    /// The first word is no command.
    UnknownCommand,
    /// The command does not take the other words.
    Refused,
    /// The value of this option is none that it takes.
    Value(Opt),
}
