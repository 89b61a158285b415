ghost use Rattle.std.specs.Prelude.{◌≡◌, [], ◌∷◌, ◌++◌, true, OnOk, OnErr, IfOk};
ghost use Rattle.json.specs.Token as spec;
ghost use Rattle.json.specs.Print.{IsPrintable};
ghost use Rattle.json.specs.Reads.{token_of};
ghost use Rattle.amf_text_write.specs.Laid.{is_by_lines, bytes_of, with_more};

use amf_wire::Memory;
use json::{Pretty, Token, Writer};
use std::alloc::Global;
use std::marker::Model;

/// How a text is laid out.
#[derive(Clone, Copy, Debug, PartialEq, Eq)]
pub enum Layout {
    /// A line for each item and member, with two spaces a level.
    Lines,
    /// Without spaces.
    Compact,
}

/// What lays tokens out.
#[derive(Drop)]
pub(crate) enum Laid {
    Lines(Pretty),
    Compact(Writer),
}

/// Tokens of JSON (RFC 8259), laid out.
#[derive(Drop)]
pub(crate) struct Output {
    laid: Laid,
}

impl Model for Output {
    ghost use Rattle.std.specs.Prelude.{◌≡◌, []};
    ghost use Rattle.amf_text_write.specs.Laid.{Shown, shown_code, shown, front};

    ghost Value = { Shown };

    ghost coded = { shown_code };

    ghost view = { λ o. shown o.laid };

    ghost invariant = { λ o. front o.laid ≡ [] };
}

impl Output {
    /// No tokens yet.
    pub(crate) fn new(alloc: Global, layout: Layout) -> Output
        ensures { result ≡ record { by_lines = is_by_lines layout; tokens = [] } }
    {
        let laid = match layout {
            Layout::Lines => Laid::Lines(Pretty::new(alloc)),
            Layout::Compact => Laid::Compact(Writer::new(Vec::new(alloc))),
        };
        Output { laid }
    }

    /// The tokens as bytes, with a line feed at the end.
    pub(crate) fn into_bytes(self) -> Result<Vec<u8>, Memory>
        ensures { IfOk result (λ bytes. bytes.items ≡ bytes_of self) }
    {
        let mut bytes = match self.laid {
            Laid::Lines(pretty) => pretty.into_inner(),
            Laid::Compact(writer) => writer.into_inner(),
        };
        bytes.push(b'\n')?;
        Ok(bytes)
    }

    /// One token more.
    pub(crate) fn token(&mut self, token: Token<'_>) -> Result<(), Memory>
        requires { IsPrintable (token_of token) }
        ensures { OnOk result (self.new ≡ with_more self.old (token_of token.entry ∷ [])) }
    {
        match &mut self.laid {
            Laid::Lines(pretty) => pretty.token(token)?,
            Laid::Compact(writer) => writer.token(token)?,
        }
        Ok(())
    }

    /// The key of a member.
    pub(crate) fn key(&mut self, name: &str) -> Result<(), Memory>
        ensures { OnOk result (self.new ≡ with_more self.old (spec.key name.now ∷ [])) }
    {
        self.token(Token::Key(name))
    }

    /// A string.
    pub(crate) fn string(&mut self, text: &str) -> Result<(), Memory>
        ensures { OnOk result (self.new ≡ with_more self.old (spec.string text.now ∷ [])) }
    {
        self.token(Token::String(text))
    }

    /// `true` or `false`.
    pub(crate) fn flag(&mut self, flag: bool) -> Result<(), Memory>
        ensures { OnOk result (self.new ≡ with_more self.old (spec.boolean flag ∷ [])) }
    {
        self.token(Token::Bool(flag))
    }
}
