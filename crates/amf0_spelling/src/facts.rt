ghost use Rattle.amf0_spelling.specs.WorkedLacks0.{Lacks0Rows};
ghost use Rattle.amf0_spelling.specs.WorkedRows0.{Leaves0, Lowerings, Nodes0};
ghost use Rattle.amf0_spelling.specs.Agreement0.{FieldsAgree0, Forgets0};

/// A canonical spelling of AMF 0 is a spelling.
pub fn forgets0()
    ensures { Forgets0 }
{}

/// Each field of a spelling of AMF 0 is whole, and none is refused.
pub fn fields_agree0()
    ensures { FieldsAgree0 }
{}

/// Worked spellings in AMF 0 of values that are no nodes.
pub fn leaves0()
    ensures { Leaves0 }
{}

/// Worked spellings of nodes in AMF 0: dates, documents, objects and arrays, by place, and behind the switch to AMF 3.
pub fn nodes0()
    ensures { Nodes0 }
{}

/// Worked lowerings: integers, sealed members, wrappers, and wrappers that never end.
pub fn lowerings()
    ensures { Lowerings }
{}

/// Worked lacks of AMF 0, each kind, and where a name and a place are just near enough.
pub fn lack_rows0()
    ensures { Lacks0Rows }
{}
