ghost use Rattle.amf3_write.specs.WorkedPartLacks.{PartsLack};

/// Worked lacks of a part of a graph: from nothing, and behind nodes that were met before.
pub fn part_lack_rows()
    ensures { PartsLack }
{}
