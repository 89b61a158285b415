ghost use Rattle.std.specs.Prelude.{◌≡◌, [], ◌∷◌, codes, decimal, true, OnOk};
ghost use Rattle.std.specs.Fmt.{signed_decimal};
ghost use Rattle.json.specs.Json as json;
ghost use Rattle.json.specs.Token as spec;
ghost use Rattle.json.specs.Tree.{json_tokens, members_tokens};
ghost use Rattle.amf_wire.specs.Text.{IsText};
ghost use Rattle.amf_text.specs.Scalars.{word, alone, hex, told_text};
ghost use Rattle.amf_text_write.specs.Flags.{flag_tokens};
ghost use Rattle.amf_text_write.specs.Laid.{with_more};

use crate::layout::Output;
use amf_wire::Memory;
use itoa::Buffer;
use json::Token;
use std::alloc::Global;

/// Texts, integers, flags, and what stands for undefined.
impl Output {
    /// An integer in decimal digits.
    pub(crate) fn int(&mut self, int: i64) -> Result<(), Memory>
        ensures { OnOk result (self.new ≡ with_more self.old (spec.number (signed_decimal int) ∷ [])) }
    {
        let mut digits = Buffer::new();
        self.token(Token::Number(digits.format(int)))
    }

    /// A number in decimal digits.
    pub(crate) fn uint(&mut self, uint: u64) -> Result<(), Memory>
        ensures { OnOk result (self.new ≡ with_more self.old (spec.number (decimal uint) ∷ [])) }
    {
        let mut digits = Buffer::new();
        self.token(Token::Number(digits.format(uint)))
    }

    /// Bytes as a string of their hexadecimal digits.
    pub(crate) fn hex(&mut self, alloc: Global, bytes: &[u8]) -> Result<(), Memory>
        ensures { OnOk result (self.new ≡ with_more self.old (spec.string (hex bytes.now) ∷ [])) }
    {
        let digits = hex::encode(alloc, bytes)?;
        self.string(digits.as_str())
    }

    /// An object of one member whose value is the hexadecimal digits of bytes.
    pub(crate) fn hex_alone(&mut self, alloc: Global, tag: &str, bytes: &[u8]) -> Result<(), Memory>
        ensures { OnOk result (self.new ≡ with_more self.old (json_tokens (alone tag.now (word (hex bytes.now))))) }
    {
        self.token(Token::BeginObject)?;
        self.key(tag)?;
        self.hex(alloc, bytes)?;
        self.token(Token::EndObject)
    }

    /// A text: a string where it is UTF-8 (RFC 3629), else its bytes.
    pub(crate) fn text(&mut self, alloc: Global, text: &[u8]) -> Result<(), Memory>
        requires { IsText text.now }
        ensures { OnOk result (self.new ≡ with_more self.old (json_tokens (told_text text.now))) }
    {
        match str::from_utf8(text) {
            Ok(text) => self.string(text),
            Err(_) => self.hex_alone(alloc, "$text", text),
        }
    }

    /// An object of one member whose value is a text.
    pub(crate) fn text_alone(&mut self, alloc: Global, tag: &str, text: &[u8]) -> Result<(), Memory>
        requires { IsText text.now }
        ensures { OnOk result (self.new ≡ with_more self.old (json_tokens (alone tag.now (told_text text.now)))) }
    {
        self.token(Token::BeginObject)?;
        self.key(tag)?;
        self.text(alloc, text)?;
        self.token(Token::EndObject)
    }

    /// What stands for undefined.
    pub(crate) fn undefined(&mut self) -> Result<(), Memory>
        ensures { OnOk result (self.new ≡ with_more self.old (json_tokens (alone (codes "$undefined") (json.boolean true)))) }
    {
        self.token(Token::BeginObject)?;
        self.key("$undefined")?;
        self.flag(true)?;
        self.token(Token::EndObject)
    }

    /// A member that stands where its flag holds.
    pub(crate) fn flag_member(&mut self, name: &str, flag: bool) -> Result<(), Memory>
        ensures { OnOk result (self.new ≡ with_more self.old (flag_tokens name.now flag)) }
    {
        if !flag {
            return Ok(());
        }
        self.key(name)?;
        self.flag(true)
    }
}
