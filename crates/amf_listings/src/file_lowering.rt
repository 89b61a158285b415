ghost use Rattle.amf_sol.specs.StoredFile.{shared};
ghost use Rattle.amf_listings.specs.SameFile.{HasLoweredFile};

use amf_sol::{SharedObject, SolVersion};
use amf0_spelling::graphs_have_one_lowering;

/// What is true of every shared object: where its version is that of AMF 0 its graph has a lowering. It does nothing.
pub fn file_has_lowering(file: &SharedObject)
    ensures { HasLoweredFile (shared file.now) }
{
    match file.version() {
        SolVersion::Amf3 => {}
        SolVersion::Amf0 => {
            graphs_have_one_lowering();
            file.holder().is_finished();
        }
    }
}
