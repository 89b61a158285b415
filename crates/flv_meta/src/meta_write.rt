ghost use Rattle.std.specs.Prelude.{◌≡◌, OnOk, OnErr, IfOk};
ghost use Rattle.std.specs.Result.{IsErrOf};
ghost use Rattle.amf_graph.specs.declared.lack.Lack.{Lack};
ghost use Rattle.amf_graph.specs.Rooted.{content};
ghost use Rattle.flv_meta.specs.MetadataAnswer.{AppendsMetadata, LacksMetadata, IsTooLong, IsLowCanonical};

use crate::meta_bytes::append_whole;
use crate::meta_end::MetaTagEnd;
use crate::meta_part::NAME;
use amf_graph::{Rooted, WriteEnd};
use amf0_write::write_lowered0;
use std::alloc::Global;

/// The most bytes that a size of 24 bits says (E.4.1).
const MAX_DATA: usize = 0xFF_FFFF;

/// Appends the metadata tag of a value (E.4.1 and E.5), with time and stream 0: its data are the name `onMetaData` and the canonical
/// AMF 0 of the value's lowering, and the number behind them is 11 and the data's length.
///
/// After an end `out` is as before. `NoSpelling` tells the first lack of the lowering; `LongData` comes exactly where it has a
/// spelling and the data would have more than 16,777,215 bytes; `Memory` where there is no room for the bytes.
pub fn meta_tag(alloc: Global, value: &Rooted, out: &mut Vec<u8>) -> Result<(), MetaTagEnd>
    ensures written { OnOk result (AppendsMetadata (content value.now) out.old.items out.new.items) }
    ensures lack { (l : Lack) → IsErrOf result (MetaTagEnd.NoSpelling l) → LacksMetadata (content value.now) l }
    ensures long { IsErrOf result MetaTagEnd.LongData → IsTooLong (content value.now) }
    ensures untouched { OnErr result (out.new.items ≡ out.old.items) }
{
    let bytes = match canonical0(alloc, value) {
        Ok(bytes) => bytes,
        Err(WriteEnd::NoSpelling(lack)) => return Err(MetaTagEnd::NoSpelling(lack)),
        Err(WriteEnd::Memory) => return Err(MetaTagEnd::Memory),
    };
    if bytes.len() > MAX_DATA - NAME.len() {
        return Err(MetaTagEnd::LongData);
    }
    append_whole(bytes.as_slice(), out)?;
    Ok(())
}

/// The canonical AMF 0 of a graph's lowering.
fn canonical0(alloc: Global, value: &Rooted) -> Result<Vec<u8>, WriteEnd>
    ensures written { IfOk result (λ bytes. IsLowCanonical (content value.now) bytes.items) }
    ensures lack { (l : Lack) → IsErrOf result (WriteEnd.NoSpelling l) → LacksMetadata (content value.now) l }
{
    let mut bytes = Vec::new(alloc);
    match write_lowered0(alloc, value, &mut bytes) {
        Ok(()) => Ok(bytes),
        Err(end) => Err(end),
    }
}
