ghost use Rattle.amf_once.specs.Owners.{HandedToOwner};
ghost use Rattle.amf_once.specs.Once.{AllOnce};
ghost use Rattle.amf_once.specs.Row.{RowHolds};

/// Over every legal history of a broker: of a subscription only polls of its client are handed something.
pub fn handed_to_owner()
    ensures { HandedToOwner }
{}

/// Over every list of events: what the taker took of a subscription of client 1 and what is pending for it is what the
/// subscription got, the numbers of what it took rise, and no batch came ahead.
pub fn each_is_taken_once()
    ensures { AllOnce }
{}

/// One course, worked: a request repeated, an answer reordered, and a poll that comes late.
pub fn one_course()
    ensures { RowHolds }
{}
