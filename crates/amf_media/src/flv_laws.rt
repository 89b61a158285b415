//! Laws of the jobs on FLV files: `Refused` comes by the verdict on the file, and with `Show` on its values.

ghost use Rattle.amf_media.specs.FlvLaws.{RefusedFiles, AcceptedFiles, SpelledValues, SetValuesHaveOneForm};

/// No job is done on a refused file. A refusal is the verdict on it, or with `Show` that of a value which stands before.
pub fn refused_files_are_not_done()
    ensures { RefusedFiles }
{}

/// A job on an accepted file is refused only with `Show`, at a value of which no front spells a graph.
pub fn accepted_files_are_refused_at_values()
    ensures files { AcceptedFiles }
    ensures values { SpelledValues }
{}

/// With `Set`, no two of these are so of the value before the file: it is refused, its lowering lacks a form, its data would be too
/// long, it can be set. And it has one first lack.
pub fn set_values_have_one_form()
    ensures { SetValuesHaveOneForm }
{}
