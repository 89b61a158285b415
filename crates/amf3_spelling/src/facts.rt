ghost use Rattle.amf3_spelling.specs.Agreement3.{Forgets, FieldsAgree};
ghost use Rattle.amf3_spelling.specs.WorkedKinds3.{Kinds};
ghost use Rattle.amf3_spelling.specs.WorkedLacks3.{Lacks};
ghost use Rattle.amf3_spelling.specs.WorkedMoreRows3.{MoreRows3};
ghost use Rattle.amf3_spelling.specs.WorkedRows3.{Rows3};

/// Worked spellings of AMF 3: integers, texts, a ring, members in any order and by name, a collection.
pub fn rows3()
    ensures { Rows3 }
{}

/// Worked spellings of AMF 3 of every other kind of node.
pub fn kind_rows()
    ensures { Kinds }
{}

/// More worked rows of AMF 3: names that stand twice, an open node, wrappers, a vector with a type name.
pub fn more_rows3()
    ensures { MoreRows3 }
{}

/// Worked lacks of AMF 3: an empty name of the root, and of a node behind it.
pub fn lack_rows()
    ensures { Lacks }
{}

/// A canonical spelling is a spelling.
pub fn forgets()
    ensures { Forgets }
{}

/// Each field of a spelling is whole, and none is refused.
pub fn fields_agree()
    ensures { FieldsAgree }
{}
