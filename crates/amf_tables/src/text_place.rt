/// The first place of a text in a table.
#[derive(Clone, Copy, Debug, PartialEq, Eq)]
pub enum TextPlace {
    /// The text stood there before.
    Old(u32),
    /// The text was entered there.
    New(u32),
}
