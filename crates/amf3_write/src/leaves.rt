ghost use Rattle.std.specs.Prelude.{◌≡◌, ◌+◌, ◌*◌, ◌<◌, [], ◌∷◌, length, map, OnOk, FitsSigned};
ghost use Rattle.std.specs.Int.{to_be_bytes, w32, w64};
ghost use Rattle.std.specs.List.{AllByRecursion};
ghost use Rattle.amf_graph.specs.Bounds.{count_end};
ghost use Rattle.amf3_spelling.specs.ByteSpelling as spell;
ghost use Rattle.amf3_write.specs.Writes.{WritesStep, WritesSteps, Keeps, vector_steps};

use crate::output::Output;
use amf_wire::{Memory, Pattern};

/// Nodes without parts, behind their markers.
impl Output {
    /// A length, and so many bytes (3.9, 3.13, 3.14).
    pub(crate) fn counted(&mut self, bytes: &[u8]) -> Result<(), Memory>
        requires { length bytes.now < count_end }
        ensures ok { OnOk result (WritesSteps (spell.step (spell.number (2 * length bytes.now + 1)) ∷ spell.step (spell.raw bytes.now) ∷ []) self.old self.new) }
        ensures keeps { Keeps self.old self.new }
        ensures tables { self.new.tables ≡ self.old.tables }
        ensures known { self.new.known ≡ self.old.known }
    {
        self.number(2 * bytes.len() as u32 + 1)?;
        self.raw(bytes)?;
        Ok(())
    }

    /// A date (3.10).
    pub(crate) fn date(&mut self, milliseconds: Pattern) -> Result<(), Memory>
        ensures ok { OnOk result (WritesSteps (spell.step spell.unused ∷ spell.step (spell.raw (to_be_bytes w64 milliseconds.0)) ∷ []) self.old self.new) }
        ensures keeps { Keeps self.old self.new }
        ensures tables { self.new.tables ≡ self.old.tables }
        ensures known { self.new.known ≡ self.old.known }
    {
        self.number(1)?;
        self.raw(&milliseconds.0.to_be_bytes())?;
        Ok(())
    }

    /// A count, and whether it is fixed (3.15).
    pub(crate) fn vector(&mut self, count: usize, fixed: bool) -> Result<(), Memory>
        requires { count < count_end }
        ensures ok { OnOk result (WritesSteps (spell.step (spell.number (2 * count + 1)) ∷ spell.step (spell.flag fixed) ∷ []) self.old self.new) }
        ensures keeps { Keeps self.old self.new }
        ensures tables { self.new.tables ≡ self.old.tables }
        ensures known { self.new.known ≡ self.old.known }
    {
        self.number(2 * count as u32 + 1)?;
        self.flag(fixed)?;
        Ok(())
    }

    /// A vector of ints (3.15).
    pub(crate) fn ints(&mut self, fixed: bool, items: &[i32]) -> Result<(), Memory>
        requires few { length items.now < count_end }
        requires in_range { AllByRecursion (FitsSigned w32) items.now }
        ensures ok { OnOk result (WritesSteps (vector_steps (length items.now) fixed (spell.signed_bytes items.now)) self.old self.new) }
        ensures keeps { Keeps self.old self.new }
        ensures tables { self.new.tables ≡ self.old.tables }
        ensures known { self.new.known ≡ self.old.known }
    {
        self.vector(items.len(), fixed)?;
        self.int_items(items)?;
        Ok(())
    }

    fn int_items(&mut self, items: &[i32]) -> Result<(), Memory>
        requires { AllByRecursion (FitsSigned w32) items.now }
        ensures ok { OnOk result (WritesStep (spell.raw (spell.signed_bytes items.now)) self.old self.new) }
        ensures keeps { Keeps self.old self.new }
        ensures tables { self.new.tables ≡ self.old.tables }
        ensures known { self.new.known ≡ self.old.known }
    {
        for int in items {
            self.raw(&int.to_be_bytes())?;
        }
        Ok(())
    }

    /// A vector of uints (3.15).
    pub(crate) fn uints(&mut self, fixed: bool, items: &[u32]) -> Result<(), Memory>
        requires { length items.now < count_end }
        ensures ok { OnOk result (WritesSteps (vector_steps (length items.now) fixed (spell.four_bytes items.now)) self.old self.new) }
        ensures keeps { Keeps self.old self.new }
        ensures tables { self.new.tables ≡ self.old.tables }
        ensures known { self.new.known ≡ self.old.known }
    {
        self.vector(items.len(), fixed)?;
        self.uint_items(items)?;
        Ok(())
    }

    fn uint_items(&mut self, items: &[u32]) -> Result<(), Memory>
        ensures ok { OnOk result (WritesStep (spell.raw (spell.four_bytes items.now)) self.old self.new) }
        ensures keeps { Keeps self.old self.new }
        ensures tables { self.new.tables ≡ self.old.tables }
        ensures known { self.new.known ≡ self.old.known }
    {
        for uint in items {
            self.raw(&uint.to_be_bytes())?;
        }
        Ok(())
    }

    /// A vector of doubles (3.15).
    pub(crate) fn doubles(&mut self, fixed: bool, items: &[Pattern]) -> Result<(), Memory>
        requires { length items.now < count_end }
        ensures ok { OnOk result (WritesSteps (vector_steps (length (map (λ p. p.0) items.now)) fixed (spell.eight_bytes (map (λ p. p.0) items.now))) self.old self.new) }
        ensures keeps { Keeps self.old self.new }
        ensures tables { self.new.tables ≡ self.old.tables }
        ensures known { self.new.known ≡ self.old.known }
    {
        self.vector(items.len(), fixed)?;
        self.double_items(items)?;
        Ok(())
    }

    fn double_items(&mut self, items: &[Pattern]) -> Result<(), Memory>
        ensures ok { OnOk result (WritesStep (spell.raw (spell.eight_bytes (map (λ p. p.0) items.now))) self.old self.new) }
        ensures keeps { Keeps self.old self.new }
        ensures tables { self.new.tables ≡ self.old.tables }
        ensures known { self.new.known ≡ self.old.known }
    {
        for double in items {
            self.raw(&double.0.to_be_bytes())?;
        }
        Ok(())
    }
}
