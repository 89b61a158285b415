use amf_graph::Value;
use amf0_spelling::Form;

/// A value of AMF 0, and in which way it uses AMF 3.
#[derive(Clone, Copy, Debug, PartialEq, Eq)]
pub struct Read0 {
    /// The value.
    pub value: Value,
    /// In which way it uses AMF 3.
    pub form: Form,
}
