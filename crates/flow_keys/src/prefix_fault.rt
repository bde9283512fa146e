//! Why a text is no prefix.

/// What is wrong with the text of a prefix.
#[derive(Clone, Copy, Debug, PartialEq, Eq)]
pub enum PrefixFault {
    /// it has no `/`, or what stands before the first one is no address
    Address,
    /// what stands behind the first `/` is no length that the address can have
    Length,
}
