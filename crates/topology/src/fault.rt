//! Why a file is refused.

/// The two lists of a file.
#[derive(Clone, Copy, Debug, PartialEq, Eq)]
pub enum Entry {
    Switch,
    Path,
}

/// The value of a list or of an entry that a fault speaks of.
#[derive(Clone, Copy, Debug, PartialEq, Eq)]
pub enum What {
    /// The list itself: `switch` or `path`.
    List,
    /// `name`
    Name,
    /// `capacity`
    Capacity,
    /// `open`
    Opening,
    /// `unit`
    Unit,
    /// `from`
    From,
    /// `to`
    To,
    /// `load`
    Load,
    /// `via`
    Via,
}

/// Why a file is refused. Entries are numbered from 0, in file order.
#[derive(Clone, Copy, Debug, PartialEq, Eq)]
pub enum TopologyFault {
    /// The bytes are no UTF-8, or no TOML.
    NotToml,
    /// A value is missing.
    Missing {
        entry: Entry,
        index: u32,
        what: What,
    },
    /// A value is of another kind than asked for. Of a list, `index` is that of its first element
    /// that is no table.
    WrongKind {
        entry: Entry,
        index: u32,
        what: What,
    },
    /// A number is outside its limits.
    Range {
        entry: Entry,
        index: u32,
        what: What,
    },
    /// A name is not 1 to 32 bytes of `a` to `z`, `0` to `9`, `_` and `-`.
    BadName {
        entry: Entry,
        index: u32,
    },
    /// An earlier entry of the list has this name.
    TwiceNamed {
        entry: Entry,
        index: u32,
    },
    /// A path's via has a name that no switch has.
    UnknownSwitch {
        path: u32,
    },
    /// A path's via has a switch twice.
    TwiceVia {
        path: u32,
    },
    /// A path's `from` or `to` is no prefix.
    BadPrefix {
        path: u32,
        what: What,
    },
    /// A path's `from` and `to` are of different families.
    MixedFamily {
        path: u32,
    },
    /// A list has `found` elements, which is outside its limits. 4,294,967,295 stands for more.
    Count {
        entry: Entry,
        index: u32,
        what: What,
        found: u32,
    },
    /// A growth was refused: the one fault that the file does not tell.
    Memory,
    /// There are more than 1,048,576 bytes.
    TooLong,
}
