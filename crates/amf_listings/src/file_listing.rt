ghost use Rattle.std.specs.Prelude.{◌≡◌, ◌++◌, OnOk, OnErr};
ghost use Rattle.amf_sol.specs.StoredFile.{shared};
ghost use Rattle.amf_listings.specs.FileListing.{AppendsFileListing, file_line, shown_version};

use amf_show::{push_word, show, show_text};
use amf_sol::{SharedObject, SolVersion};
use amf_wire::Memory;
use std::alloc::Global;

/// Appends the listing of a shared object file: a line with its name and its version, and behind it the listing of the graph
/// whose root holds the pairs.
///
/// After an end `out` is as before. It gives up where there is no memory.
pub fn show_file(alloc: Global, file: &SharedObject, out: &mut Vec<u8>) -> Result<(), Memory>
    ensures shown { OnOk result (AppendsFileListing (shared file.now) out.old.items out.new.items) }
    ensures untouched { OnErr result (out.new.items ≡ out.old.items) }
{
    let mut listing = Vec::new(alloc);
    push_file_line(alloc, file, &mut listing)?;
    show(alloc, file.holder(), &mut listing)?;
    out.extend_from_slice(&listing)?;
    Ok(())
}

/// Appends the first line: the name and the version.
#[tactic(auto, unfolding(crate::specs::FileListing::file_line))]
fn push_file_line(alloc: Global, file: &SharedObject, out: &mut Vec<u8>) -> Result<(), Memory>
    ensures { OnOk result (out.new.items ≡ out.old.items ++ file_line file.now.name file.now.version) }
{
    push_word(b"sol ", out)?;
    show_text(alloc, file.name().as_bytes(), out)?;
    push_word(b" ", out)?;
    push_word(version_word(file.version()), out)?;
    push_word(b"\n", out)
}

fn version_word(version: SolVersion) -> &'static [u8]
    ensures { result.now ≡ shown_version version }
{
    match version {
        SolVersion::Amf0 => b"0",
        SolVersion::Amf3 => b"3",
    }
}
