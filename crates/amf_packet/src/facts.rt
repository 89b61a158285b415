ghost use Rattle.amf_packet.specs.Alike.{SamePackets};
ghost use Rattle.amf_packet.specs.VerdictLaws.{PacketVerdicts};
ghost use Rattle.amf_packet.specs.WorkedPackets.{Packets};
ghost use Rattle.amf_packet.specs.WorkedVerdicts.{Verdicts};

/// Worked packets and bodies, free and canonical.
pub fn packet_rows()
    ensures { Packets }
{}

/// Worked verdicts on inputs of one packet.
pub fn packet_verdict_rows()
    ensures { Verdicts }
{}

/// An input has a verdict, and no input has two: it is one packet, or it is refused for one reason at one offset, which is
/// that of the first field that is wrong.
pub fn packets_have_one_verdict()
    ensures { PacketVerdicts }
{}

/// Two packets that the same bytes spell are the same but for the numbers of their nodes.
pub fn packets_are_same()
    ensures { SamePackets }
{}
