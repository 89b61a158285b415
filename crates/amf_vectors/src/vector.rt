/// A value of AMF 3 with its canonical spelling.
#[derive(Clone, Copy, Debug)]
pub struct Vector {
    /// Bytes that spell a value.
    pub input: &'static [u8],
    /// The canonical spelling of that value.
    pub output: &'static [u8],
}

/// Values of AMF 3 with their canonical spellings, to try a reader and a writer on. No clause speaks of them: a test of the
/// program runs over all.
pub fn vectors() -> &'static [Vector] {
    &VECTORS
}

static VECTORS: [Vector; 24] = [
    Vector {
        input: b"\x01",
        output: b"\x01",
    },
    Vector {
        input: b"\x04\x80\x05",
        output: b"\x04\x05",
    },
    Vector {
        input: b"\x04\xC0\x80\x80\x00",
        output: b"\x04\xC0\x80\x80\x00",
    },
    Vector {
        input: b"\x04\xBF\xFF\xFF\xFF",
        output: b"\x04\xBF\xFF\xFF\xFF",
    },
    Vector {
        input: b"\x04\xFF\xFF\xFF\xFF",
        output: b"\x04\xFF\xFF\xFF\xFF",
    },
    Vector {
        input: b"\x09\x05\x01\x06\x07foo\x06\x07foo",
        output: b"\x09\x05\x01\x06\x07foo\x06\x00",
    },
    Vector {
        input: b"\x09\x03\x01\x09\x00",
        output: b"\x09\x03\x01\x09\x00",
    },
    Vector {
        input: b"\x0A\x0B\x01\x03b\x04\x01\x03a\x04\x02\x01",
        output: b"\x0A\x0B\x01\x03a\x04\x02\x03b\x04\x01\x01",
    },
    Vector {
        input: b"\x0A\x0B\x01\x03b\x09\x01\x01\x03a\x09\x02\x01",
        output: b"\x0A\x0B\x01\x03a\x09\x01\x01\x03b\x09\x02\x01",
    },
    Vector {
        input: b"\x0A\x07Cflex.messaging.io.ArrayCollection\x09\x01\x01",
        output: b"\x0A\x07Cflex.messaging.io.ArrayCollection\x09\x01\x01",
    },
    Vector {
        input: b"\x0A\x0FCflex.messaging.io.ArrayCollection\x09\x01\x01",
        output: b"\x0A\x07Cflex.messaging.io.ArrayCollection\x09\x01\x01",
    },
    Vector {
        input: b"\x06\x05\xC0\x80",
        output: b"\x06\x05\xC0\x80",
    },
    Vector {
        input: b"\x0D\x05\x02\x00\x00\x00\x01\xFF\xFF\xFF\xFF",
        output: b"\x0D\x05\x01\x00\x00\x00\x01\xFF\xFF\xFF\xFF",
    },
    Vector {
        input: b"\x11\x03\x00\x04\x01\x06\x03a",
        output: b"\x11\x03\x00\x04\x01\x06\x03a",
    },
    Vector {
        input: b"\x04\x7F",
        output: b"\x04\x7F",
    },
    Vector {
        input: b"\x04\x81\x00",
        output: b"\x04\x81\x00",
    },
    Vector {
        input: b"\x05\x3F\xF0\x00\x00\x00\x00\x00\x00",
        output: b"\x05\x3F\xF0\x00\x00\x00\x00\x00\x00",
    },
    Vector {
        input: b"\x08\x01\x3F\xF0\x00\x00\x00\x00\x00\x00",
        output: b"\x08\x01\x3F\xF0\x00\x00\x00\x00\x00\x00",
    },
    Vector {
        input: b"\x0C\x05\x01\x02",
        output: b"\x0C\x05\x01\x02",
    },
    Vector {
        input: b"\x0D\x03\x01\xFF\xFF\xFF\xFE",
        output: b"\x0D\x03\x01\xFF\xFF\xFF\xFE",
    },
    Vector {
        input: b"\x0E\x03\x00\x00\x00\x01\x02",
        output: b"\x0E\x03\x00\x00\x00\x01\x02",
    },
    Vector {
        input: b"\x0F\x03\x00\x3F\xF0\x00\x00\x00\x00\x00\x00",
        output: b"\x0F\x03\x00\x3F\xF0\x00\x00\x00\x00\x00\x00",
    },
    Vector {
        input: b"\x09\x05\x01\x07\x03a\x0B\x03a",
        output: b"\x09\x05\x01\x07\x03a\x0B\x03a",
    },
    Vector {
        input: b"\x11\x01\x01",
        output: b"\x11\x01\x01",
    },
];
