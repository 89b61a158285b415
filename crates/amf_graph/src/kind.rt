/// The kinds of nodes (AMF 3, 3.9 to 3.16).
#[derive(Clone, Copy, Debug, PartialEq, Eq)]
pub enum NodeKind {
    XmlDocument,
    Xml,
    Date,
    Bytes,
    Ints,
    Uints,
    Doubles,
    Array,
    Object,
    Wrapper,
    Values,
    Dictionary,
}
