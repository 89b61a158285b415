/// The most texts and nodes of a graph, bytes of a text, and items, names and parts together of a node: 2^28-1, as the
/// headers of AMF 3 have room for (1.3.1, 3.12).
pub const MAX_COUNT: u32 = 268_435_455;

/// The most traits of a graph: 2^27-1.
pub const MAX_TRAITS: u32 = 134_217_727;

/// The most sealed names of one class: 2^25-1.
pub const MAX_SEALED: u32 = 33_554_431;

/// The most bytes of a text that is compared byte by byte with any other.
pub(crate) const MAX_COMPARED: usize = 64;
