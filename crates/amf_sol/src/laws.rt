//! Laws of the verdict on a shared object file, and of what a shared object is written as.

ghost use Rattle.amf_sol.specs.FileLaws.{FilesJudged, FilesJudgedOnce, FilesFixFields, FilesFixNext, FileFaultsAreFirst, FilesHaveHolders, FilesOrLacks};

/// An input of bytes has a verdict, and no input has two: it is a shared object file of the length that it gives, or it is
/// refused for one reason at one offset.
pub fn files_have_one_verdict()
    ensures judged { FilesJudged }
    ensures once { FilesJudgedOnce }
{}

/// The same bytes have one cut into the fields of a file. A file ends where its bytes do, so it may be the front of another.
pub fn files_fix_fields()
    ensures { FilesFixFields }
{}

/// What kind of field of a file comes next follows from the bytes before it.
pub fn files_fix_next_kind()
    ensures { FilesFixNext }
{}

/// A faulty field of a file is the first that is wrong: the bytes before it can be completed to a file, with any length, and
/// no file begins with the bytes up to its end.
pub fn file_faults_are_first()
    ensures { FileFaultsAreFirst }
{}

/// The root of the graph that a file spells is a dynamic object without class and sealed names, and nothing that it reaches
/// holds it.
pub fn files_have_holders()
    ensures { FilesHaveHolders }
{}

/// A shared object has no two canonical files and no two first lacks, and where it has a canonical file it lacks nothing.
pub fn files_or_lacks()
    ensures { FilesOrLacks }
{}
