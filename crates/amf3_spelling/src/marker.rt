ghost use Rattle.std.specs.Prelude.{◌≡◌, ◌≤◌, ◌<◌, IfSome, IfNone};
ghost use Rattle.amf3_spelling.specs.Markers3.{marker_at, marker_byte, node_marker};

use amf_graph::NodeKind;

/// What the marker of a value says (AMF 3 specification, 3.1).
#[derive(Clone, Copy, Debug, PartialEq, Eq)]
pub enum Marker {
    Undefined,
    Null,
    False,
    True,
    Integer,
    Double,
    Text,
    /// A node of this kind. Objects and instances of externalizable classes have the same marker.
    Node(NodeKind),
}

impl Marker {
    /// The marker that a byte is, or `None` exactly above 0x11: 0x0A is that of objects (AMF 3
    /// specification, 3.1).
    pub fn from_byte(byte: u8) -> Option<Marker>
        ensures known { IfSome result (λ marker. (byte ≤ 0x11) × (marker ≡ marker_at byte)) }
        ensures none { IfNone result (0x11 < byte) }
    {
        Some(match byte {
            0x00 => Marker::Undefined,
            0x01 => Marker::Null,
            0x02 => Marker::False,
            0x03 => Marker::True,
            0x04 => Marker::Integer,
            0x05 => Marker::Double,
            0x06 => Marker::Text,
            0x07 => Marker::Node(NodeKind::XmlDocument),
            0x08 => Marker::Node(NodeKind::Date),
            0x09 => Marker::Node(NodeKind::Array),
            0x0A => Marker::Node(NodeKind::Object),
            0x0B => Marker::Node(NodeKind::Xml),
            0x0C => Marker::Node(NodeKind::Bytes),
            0x0D => Marker::Node(NodeKind::Ints),
            0x0E => Marker::Node(NodeKind::Uints),
            0x0F => Marker::Node(NodeKind::Doubles),
            0x10 => Marker::Node(NodeKind::Values),
            0x11 => Marker::Node(NodeKind::Dictionary),
            _ => return None,
        })
    }

    /// Its byte.
    pub fn byte(self) -> u8
        ensures { result ≡ marker_byte self }
    {
        match self {
            Marker::Undefined => 0x00,
            Marker::Null => 0x01,
            Marker::False => 0x02,
            Marker::True => 0x03,
            Marker::Integer => 0x04,
            Marker::Double => 0x05,
            Marker::Text => 0x06,
            Marker::Node(kind) => node_marker(kind),
        }
    }
}

/// The marker of a node of this kind (AMF 3 specification, 3.1).
pub fn node_marker(kind: NodeKind) -> u8
    ensures { result ≡ node_marker kind }
{
    match kind {
        NodeKind::XmlDocument => 0x07,
        NodeKind::Date => 0x08,
        NodeKind::Array => 0x09,
        NodeKind::Object | NodeKind::Wrapper => 0x0A,
        NodeKind::Xml => 0x0B,
        NodeKind::Bytes => 0x0C,
        NodeKind::Ints => 0x0D,
        NodeKind::Uints => 0x0E,
        NodeKind::Doubles => 0x0F,
        NodeKind::Values => 0x10,
        NodeKind::Dictionary => 0x11,
    }
}
