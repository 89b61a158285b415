ghost use Rattle.amf3_layout_laws.specs.WorkedVerdicts3.{Verdicts};

/// Worked verdicts on inputs of one AMF 3 value.
pub fn verdict_rows()
    ensures { Verdicts }
{}
