ghost use Rattle.amf_sol.specs.WorkedFiles.{Files};

/// Worked shared object files: the bytes of one, and the verdict on it with its length and with another.
pub fn worked_files()
    ensures { Files }
{}
