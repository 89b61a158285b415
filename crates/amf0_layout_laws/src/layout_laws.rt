ghost use Rattle.amf0_layout_laws.specs.Layout0Laws.{Layout0OfSpellings, Layout0Reads, ValuesAreSpellings0};

/// Reading AMF 0 into a builder's arena and its tables leaves what was there as it was, and each new node closed; what is
/// there then is again a builder's arena with its tables. In each finished graph that completes it, the fields that were read
/// spell the value.
pub fn layouts0_are_sound()
    ensures { Layout0Reads }
{}

/// From a builder's arena and its tables, the layouts are those of the spellings of AMF 0: they read every list of fields that
/// is accepted, and of bytes no other; more fuel changes no answer; and what has been read can be completed.
pub fn layouts0_are_of_spellings()
    ensures { Layout0OfSpellings }
{}

/// From nothing, the lists of fields of bytes that are accepted are exactly those that spell some graph in AMF 0.
pub fn values0_are_spellings()
    ensures { ValuesAreSpellings0 }
{}
