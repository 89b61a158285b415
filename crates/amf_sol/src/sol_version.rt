/// The format of the values in a shared object file, which is named by the file's version byte: 0 for AMF 0, 3 for AMF 3.
#[derive(Clone, Copy, Debug, PartialEq, Eq)]
pub enum SolVersion {
    Amf0,
    Amf3,
}
