ghost use Rattle.amf0_layout_laws.specs.WorkedVerdicts0.{Verdicts0};

/// Worked verdicts on inputs of one AMF 0 value.
pub fn verdict_rows0()
    ensures { Verdicts0 }
{}
