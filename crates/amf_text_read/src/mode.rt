ghost use Rattle.std.specs.Prelude.{◌≡◌};
ghost use Rattle.json.specs.Lex.{class, between as lex_between};
ghost use Rattle.json.specs.Word.{is_space as space_test, is_operator as operator_test};
ghost use Rattle.amf_text.specs.Scan.{next_mode, is_open, begins as begins_in};
ghost use Rattle.amf_text_read.specs.Modes.{mode_of};

/// Where the lexer of JSON stands (RFC 8259, 2): between lexemes, in a number or a word, in a string, or behind a backslash in it.
#[derive(Clone, Copy)]
pub enum Mode {
    Between,
    InWord,
    InString,
    InEscape,
}

/// Whether a byte is white space.
fn is_space(byte: u8) -> bool
    ensures { result ≡ space_test byte }
{
    byte == b' ' || byte == b'\t' || byte == b'\n' || byte == b'\r'
}

/// Whether a byte is a bracket, a comma or a colon.
fn is_operator(byte: u8) -> bool
    ensures { result ≡ operator_test byte }
{
    byte == b'{' || byte == b'}' || byte == b'[' || byte == b']' || byte == b':' || byte == b','
}

impl Mode {
    /// Where it stands behind this byte.
    pub fn next(self, byte: u8) -> Mode
        ensures { mode_of result ≡ next_mode (mode_of self) (class byte) }
    {
        match self {
            Mode::Between => between(byte),
            Mode::InWord if is_operator(byte) || is_space(byte) => Mode::Between,
            Mode::InWord => Mode::InWord,
            Mode::InString if byte == b'"' => Mode::Between,
            Mode::InString if byte == b'\\' => Mode::InEscape,
            Mode::InString | Mode::InEscape => Mode::InString,
        }
    }

    /// Whether a lexeme begins with this byte.
    pub fn begins(self, byte: u8) -> bool
        ensures { result ≡ begins_in (mode_of self) (class byte) }
    {
        match self {
            Mode::Between => !is_space(byte),
            Mode::InWord => is_operator(byte),
            Mode::InString | Mode::InEscape => false,
        }
    }

    /// Whether a lexeme goes on there.
    pub(crate) fn is_open(self) -> bool
        ensures { result ≡ is_open (mode_of self) }
    {
        match self {
            Mode::Between => false,
            Mode::InWord | Mode::InString | Mode::InEscape => true,
        }
    }
}

/// Where it stands behind the first byte of a lexeme, or behind white space.
fn between(byte: u8) -> Mode
    ensures { mode_of result ≡ next_mode lex_between (class byte) }
{
    if byte == b'"' {
        Mode::InString
    } else if is_operator(byte) || is_space(byte) {
        Mode::Between
    } else {
        Mode::InWord
    }
}
