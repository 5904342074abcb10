//! What is stored of a name beside its bytes.

/// A name in a table of names.
#[derive(Clone, Copy)]
pub(crate) struct NameEntry {
    /// 32 bits of its hash.
    pub(crate) hash: u32,
    /// One more than the number of the name before it in its chain, or 0 if it is the last there.
    pub(crate) next: u32,
    /// Where its bytes end.
    pub(crate) end: usize,
}
