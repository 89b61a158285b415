ghost use Rattle.std.specs.Prelude.{◌≡◌, OnOk};
ghost use Rattle.amf_io.specs.Field.{AreBytes};
ghost use Rattle.amf_io.specs.Layout.{give};
ghost use Rattle.amf_io.specs.ReadEnds.{IsPlaced, Goes};
ghost use Rattle.amf_io.specs.CursorReads.{Answers};
ghost use Rattle.amf3_layout_laws.specs.Layout3Words.{chunk};
ghost use Rattle.amf_wire_fields.specs.FieldSize.{contents_kind, contents_refusal};

use amf_graph::Wrapped;
use amf_io::{Cursor, ReadEnd, Reason, Source, read_end, refused};
use amf_wire::is_amf_text;
use std::alloc::Global;

/// What the bytes behind a length are.
#[derive(Clone, Copy, Debug, PartialEq, Eq)]
pub enum Contents {
    /// Any bytes.
    Bytes,
    /// A text.
    Text,
    /// The name of a served externalizable class.
    Class,
}

impl Contents {
    /// Why these bytes are refused.
    fn refusal(self, bytes: &[u8]) -> Option<Reason>
        ensures bytes { AreBytes bytes.now }
        ensures refusal { result ≡ contents_refusal self bytes.now }
    {
        match self {
            Contents::Bytes => None,
            Contents::Text if is_amf_text(bytes) => None,
            Contents::Text => Some(Reason::BadText),
            Contents::Class if Wrapped::named(bytes).is_some() => None,
            Contents::Class => Some(Reason::UnknownExternal),
        }
    }
}

/// Reads so many bytes of contents; none are no field. It grows its memory only as bytes come. Contents that the input or its
/// limit cuts off, or that are refused, are refused at their first byte.
pub fn read_contents<S: Source>(
    alloc: Global,
    cursor: &mut Cursor<'_, S>,
    contents: Contents,
    size: u32,
) -> Result<Vec<u8>, ReadEnd>
    ensures goes { Goes S.Source cursor.old cursor.new result }
    ensures answers { Answers S.tells S.left (λ bytes. bytes.items) (chunk (contents_kind contents) size (λ x. give x)) cursor.old cursor.new result }
    ensures placed { OnOk result (IsPlaced cursor.new) }
{
    let start = cursor.at();
    let mut bytes = Vec::new(alloc);
    if size == 0 {
        return Ok(bytes);
    }
    if let Err(end) = cursor.take_into(size, &mut bytes) {
        return Err(read_end(end, start));
    }
    match contents.refusal(&bytes) {
        Some(reason) => Err(refused(reason, start)),
        None => Ok(bytes),
    }
}
