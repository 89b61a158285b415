ghost use Rattle.amf_service.specs.Meaning.{FaultsWith};

use crate::ServiceEnd;
use amf_wire::Name;
use std::alloc::Global;

/// The fault with this text, or `Memory` where there is no room for it. A service may give one of at most 65,535 bytes that is
/// a text.
pub fn fault(alloc: Global, text: &[u8]) -> ServiceEnd
    ensures { FaultsWith text.now result }
{
    match Name::of_bytes(alloc, text) {
        Ok(text) => ServiceEnd::Fault(text),
        Err(_) => ServiceEnd::Memory,
    }
}
