ghost use Rattle.amf_bytes.specs.FirstFaults.{FirstFaults};
ghost use Rattle.amf_bytes.specs.ThereAndBack.{ThereAndBack};

/// There and back: a text that `json` gives of an input has the bytes that `canon` gives of that input, and `json` gives of the
/// bytes of a text a text that has them again.
pub fn there_and_back()
    ensures { ThereAndBack }
{}

/// A refusal of a text names its first fault: the tokens before the place begin a text that means something, where labels may lead
/// nowhere, and with the token there they begin none; or none is there, and they mean nothing yet, or something already.
pub fn first_faults()
    ensures { FirstFaults }
{}
