ghost use Rattle.amf_text_laws.specs.TextBounds.{TextBounds};
ghost use Rattle.amf_text_laws.specs.ThereAndBack.{ThereAndBack};
ghost use Rattle.amf_text_laws.specs.Verdicts.{OneVerdict};

/// What a canonical text means has the graphs of which it is told; where those are lowered graphs that are told bare, as of AMF 0,
/// its own have them for lowerings.
pub fn there_and_back()
    ensures { ThereAndBack }
{}

/// The verdict on a text is one: a text that is accepted means one document and is not refused, a refusal has one reason and one place,
/// and no text within the limit has neither. Each label that is called has a place.
pub fn one_verdict()
    ensures { OneVerdict }
{}

/// A text has more bytes than what it means has nodes, values, names and items; so one within the limit means graphs that have numbers for all of them.
/// Its graphs weigh together at most four times its bytes.
pub fn few_nodes()
    ensures { TextBounds }
{}
