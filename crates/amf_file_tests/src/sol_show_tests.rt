use crate::checks::holds;
use amf_fixtures::graph0;
use amf_listings::{file_has_lowering, show_file};
use amf_sol::{SharedObject, SolVersion};
use amf_wire::Name;
use std::alloc::Global;
use std::process::Abort;

const LISTING: &[u8] = b">sol \"\\22t\" 0\n\
    root #0\n\
    #0 object \"\" sealed {} dynamic {\"\"=null, \"b\"=#1}\n\
    #1 array [] {}\n";

const LISTING3: &[u8] = b">sol \"\\22t\" 3\n\
    root #0\n\
    #0 object \"\" sealed {} dynamic {\"\"=null, \"b\"=#1}\n\
    #1 array [] {}\n";

/// A holder with an array as "b", and null with the empty name.
const HOLDER: &[u8] = b"\x03\0\x01b\x0A\0\0\0\0\0\0\x05\0\0\x09";

/// The shared object of this version.
fn file(rt: &impl Abort, alloc: Global, version: SolVersion) -> SharedObject {
    let name = Name::from_bytes(alloc, b"\"t").expect(rt, "a name");
    let holder = graph0(alloc, HOLDER).expect(rt, "a graph");
    SharedObject::new(alloc, name, version, holder).expect(rt, "a file")
}

/// Compares the listing of a shared object behind a first byte.
fn shows(rt: &impl Abort, alloc: Global, version: SolVersion, listing: &[u8]) {
    let file = file(rt, alloc, version);
    file_has_lowering(&file);
    let mut out = vec![in alloc; b'>'].expect(rt, "memory");
    show_file(alloc, &file, &mut out).expect(rt, "memory");
    holds(rt, out.as_slice() == listing, "the listing");
}

#[test]
fn lists_both_versions(rt: HostRuntime) {
    shows(&rt, rt.alloc(), SolVersion::Amf0, LISTING);
    shows(&rt, rt.alloc(), SolVersion::Amf3, LISTING3);
}
