ghost use Rattle.std.specs.Prelude.{◌≡◌};
ghost use Rattle.amf_commands.specs.Commands.{format_named, goes_to};

/// A format of an input or an output.
#[derive(Clone, Copy, Debug, PartialEq, Eq)]
pub enum Format {
    /// AMF 3 (Adobe, January 2013).
    Amf3,
    /// AMF 0 (Adobe, 2007).
    Amf0,
    /// An AMF packet (AMF 0, 4.1).
    Packet,
    /// A shared object file.
    Sol,
}

impl Format {
    /// The format of this name.
    pub fn of(name: &str) -> Option<Format>
        ensures { result ≡ format_named name.now }
    {
        match name {
            "amf3" => Some(Format::Amf3),
            "amf0" => Some(Format::Amf0),
            "packet" => Some(Format::Packet),
            "sol" => Some(Format::Sol),
            _ => None,
        }
    }

    /// Whether what is in this format can be written in that one: a value in either format of values, a packet
    /// as a packet, and a file as a file.
    pub fn goes_to(self, to: Format) -> bool
        ensures { result ≡ goes_to self to }
    {
        match (self, to) {
            (Format::Packet, Format::Packet) | (Format::Sol, Format::Sol) => true,
            (Format::Packet, _) | (Format::Sol, _) | (_, Format::Packet) | (_, Format::Sol) =>
                false,
            _ => true,
        }
    }
}
