use amf_graph::Value;
use amf_io::ReadEnd;
use amf_wire::Memory;
use std::alloc::{AllocError, Global};

/// A value, as its kind and what it holds; doubles by their bits.
pub(crate) fn value_told(alloc: Global, value: Value) -> Result<String, AllocError> {
    match value {
        Value::Undefined => format!(in alloc; "Undefined"),
        Value::Null => format!(in alloc; "Null"),
        Value::Bool(is) => format!(in alloc; "Bool {is}"),
        Value::Integer(number) => format!(in alloc; "Integer {number}"),
        Value::Double(bits) => {
            let bits = bits.0;
            format!(in alloc; "Double {bits:016X}")
        }
        Value::Text(text) => {
            let text = text.0;
            format!(in alloc; "Text {text}")
        }
        Value::Node(node) => {
            let node = node.0;
            format!(in alloc; "Node {node}")
        }
    }
}

/// Why a reader gave no value: the reason and the place of a refusal, or the end itself.
pub fn end_told(alloc: Global, end: ReadEnd) -> Result<String, Memory> {
    Ok(match end {
        ReadEnd::Refused(refusal) => {
            let reason = refusal.reason;
            let at = refusal.at;
            format!(in alloc; "{reason:?} {at}")?
        }
        end => format!(in alloc; "{end:?}")?,
    })
}
