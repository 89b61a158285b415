ghost use Rattle.std.specs.Prelude.{◌≡◌, [], codes, decimal, map, OnOk};
ghost use Rattle.std.specs.Fmt.{signed_decimal};
ghost use Rattle.json.specs.Token as spec;
ghost use Rattle.json.specs.Tree.{json_tokens};
ghost use Rattle.amf_graph.specs.Graph as graph;
ghost use Rattle.amf_text.specs.Scalars.{Digits, AreDigits};
ghost use Rattle.amf_text.specs.Told.{told_body};
ghost use Rattle.amf_text_write.specs.Laid.{with_more};
ghost use Rattle.amf_text_write.specs.Parts.{each_pattern, doubles_tokens};
ghost use Rattle.amf_text_write.specs.Tells.{Tells};

use crate::layout::Output;
use amf_wire::{Memory, Pattern};
use json::Token;
use std::alloc::Global;

/// Vectors of numbers.
impl Output {
    fn each_int(&mut self, items: &[i32]) -> Result<(), Memory>
        ensures { OnOk result (self.new ≡ with_more self.old (map (λ n. spec.number (signed_decimal n)) items.now)) }
    {
        for int in items {
            self.int(i64::from(*int))?;
        }
        Ok(())
    }

    fn each_uint(&mut self, items: &[u32]) -> Result<(), Memory>
        ensures { OnOk result (self.new ≡ with_more self.old (map (λ n. spec.number (decimal n)) items.now)) }
    {
        for uint in items {
            self.uint(u64::from(*uint))?;
        }
        Ok(())
    }

    fn each_pattern(&mut self, alloc: Global, items: &[Pattern]) -> Result<(), Memory>
        ensures { (d : Digits) → AreDigits d → OnOk result (Tells (each_pattern d items.now) self.old self.new) }
    {
        for double in items {
            self.pattern(alloc, *double)?;
        }
        Ok(())
    }

    /// A vector of ints.
    pub(crate) fn ints(&mut self, fixed: bool, items: &[i32]) -> Result<(), Memory>
        ensures { (d : Digits) → OnOk result (self.new ≡ with_more self.old (json_tokens (told_body d (graph.ints fixed items.now) [] []))) }
    {
        self.token(Token::BeginObject)?;
        self.flag_member("$fixed", fixed)?;
        self.key("$ints")?;
        self.token(Token::BeginArray)?;
        self.each_int(items)?;
        self.token(Token::EndArray)?;
        self.token(Token::EndObject)
    }

    /// A vector of uints.
    pub(crate) fn uints(&mut self, fixed: bool, items: &[u32]) -> Result<(), Memory>
        ensures { (d : Digits) → OnOk result (self.new ≡ with_more self.old (json_tokens (told_body d (graph.uints fixed items.now) [] []))) }
    {
        self.token(Token::BeginObject)?;
        self.flag_member("$fixed", fixed)?;
        self.key("$uints")?;
        self.token(Token::BeginArray)?;
        self.each_uint(items)?;
        self.token(Token::EndArray)?;
        self.token(Token::EndObject)
    }

    /// A vector of doubles.
    pub(crate) fn doubles(
        &mut self,
        alloc: Global,
        fixed: bool,
        items: &[Pattern],
    ) -> Result<(), Memory>
        ensures { (d : Digits) → AreDigits d → OnOk result (Tells (doubles_tokens d fixed items.now) self.old self.new) }
    {
        self.token(Token::BeginObject)?;
        self.key("$doubles")?;
        self.token(Token::BeginArray)?;
        self.each_pattern(alloc, items)?;
        self.token(Token::EndArray)?;
        self.flag_member("$fixed", fixed)?;
        self.token(Token::EndObject)
    }
}
