/// What is done with the metadata of an FLV file.
#[derive(Clone, Copy, Debug, PartialEq, Eq)]
pub enum FlvJob {
    /// The values of each metadata tag are listed.
    Show,
    /// The file is written again without its metadata tags.
    Drop,
    /// The file is written again with one metadata tag, whose value is read before the file.
    Set,
}
