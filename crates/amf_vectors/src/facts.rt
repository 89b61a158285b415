ghost use Rattle.amf_vectors.specs.WorkedMade.{MadeRows};

/// Worked facts of the graphs that are made: the first numbers, and the graphs of one node and of three.
pub fn made_rows()
    ensures { MadeRows }
{}
