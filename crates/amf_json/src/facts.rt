ghost use Rattle.amf_json.specs.JsonLaws.{JsonLaws};

/// The same inputs, but for the numbers of their nodes, have the same texts; each input that can be read back has one, and it means
/// what it tells.
pub fn json_laws()
    ensures { JsonLaws }
{}
