ghost use Rattle.std.specs.Prelude.{◌≡◌};
ghost use Rattle.amf_graph.specs.Graph.{class_name};
ghost use Rattle.amf_graph.specs.Classes.{class_named};

/// The externalizable classes that are served, whose instances hold one value (AMF 3, 3.12).
#[derive(Clone, Copy, Debug, PartialEq, Eq)]
pub enum Wrapped {
    /// `flex.messaging.io.ArrayCollection`.
    ArrayCollection,
    /// `flex.messaging.io.ArrayList`.
    ArrayList,
    /// `flex.messaging.io.ObjectProxy`.
    ObjectProxy,
}

impl Wrapped {
    /// The name of the class.
    pub fn class_name(self) -> &'static [u8]
        ensures { result.now ≡ class_name self }
    {
        match self {
            Wrapped::ArrayCollection => b"flex.messaging.io.ArrayCollection",
            Wrapped::ArrayList => b"flex.messaging.io.ArrayList",
            Wrapped::ObjectProxy => b"flex.messaging.io.ObjectProxy",
        }
    }

    /// The class of this name, if it is one of these.
    pub fn named(name: &[u8]) -> Option<Wrapped>
        ensures { result ≡ class_named name.now }
    {
        if Wrapped::ArrayCollection.class_name() == name {
            Some(Wrapped::ArrayCollection)
        } else if Wrapped::ArrayList.class_name() == name {
            Some(Wrapped::ArrayList)
        } else if Wrapped::ObjectProxy.class_name() == name {
            Some(Wrapped::ObjectProxy)
        } else {
            None
        }
    }
}
