ghost use Rattle.amf3_layout_laws.specs.Layout3Laws.{Layout3Able, Layout3Accepted, Layout3Complete, Layout3Grows, Layout3OfSpellings, Layout3Reads, ValuesAreSpellings3};

/// More fuel changes no answer of the layouts of AMF 3.
pub fn layouts_grow()
    ensures { Layout3Grows }
{}

/// What has been read of a value of AMF 3 can be completed after every start.
pub fn layouts_complete_starts()
    ensures { Layout3Able }
{}

/// Fields that spell a value of some finished graph, which completes what is there, are read.
pub fn layouts_read_spellings()
    ensures { Layout3Complete }
{}

/// Bytes that are read spell a value of some finished graph, which completes what was there: the
/// layouts read nothing else.
pub fn layouts_read_only_spellings()
    ensures { Layout3Accepted }
{}

/// Reading into a builder's arena and its tables leaves what was there as it was, and each new node
/// closed; what is there then is again a builder's arena with its tables. In each finished graph that
/// completes it, the fields that were read spell the value.
pub fn layouts_are_sound()
    ensures { Layout3Reads }
{}

/// From a builder's arena and its tables, the layouts are those of the spellings of AMF 3: they read
/// every list of fields that is accepted, and of bytes no other; more fuel changes no answer; and what
/// has been read can be completed.
pub fn layouts_are_of_spellings()
    ensures { Layout3OfSpellings }
{}

/// From nothing, the lists of fields of bytes that are accepted are exactly those that spell some
/// graph.
pub fn values_are_spellings()
    ensures { ValuesAreSpellings3 }
{}
