ghost use Rattle.std.specs.Prelude.{ℕ};
ghost use Rattle.amf_wire.specs.OneShortest.{HasOneShortest};
ghost use Rattle.amf_wire.specs.WorkedFacts.{WorkedFacts};

/// Each number below 2^29 has a shortest spelling, and no number has two.
pub fn one_shortest_u29()
    ensures { (n : ℕ) → HasOneShortest n }
{}

/// Worked facts of the definitions: spellings of 5, -2^28, 2^28-1 and -1, a text and none, and that the test for a text
/// agrees with the definition.
pub fn worked_facts()
    ensures { WorkedFacts }
{}
