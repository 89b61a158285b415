ghost use Rattle.std.specs.Prelude.{◌≡◌, ◌<◌, ◌++◌, length, map, IfSome, OnOk};
ghost use Rattle.std.specs.List.{zip};
ghost use Rattle.amf_graph.specs.Arena.{traits_at};
ghost use Rattle.amf_iso.specs.Contents.{values_of, AreValues, ArePairs};
ghost use Rattle.amf_show.specs.ByLister.{object_by};
ghost use Rattle.amf_show.specs.Heads.{IsTextOf};
ghost use Rattle.amf_show.specs.Listing.{shown_pair};
ghost use Rattle.amf_show.specs.Shown.{joined};

use crate::class_text::ClassText;
use crate::lister::Lister;
use crate::numbers::push_word;
use amf_graph::{TextId, TraitsId, Value};
use amf_wire::Memory;

impl Lister<'_> {
    /// The text of a class, if it is ready.
    fn class_text(&self, traits: TraitsId) -> Option<&ClassText>
        ensures traits { IfSome result (λ class. class.now.traits ≡ traits) }
        ensures text { IfSome result (λ class. IsTextOf self.now.graph.now.arena class.now.traits.0 class.now) }
    {
        for class in self.classes {
            if class.traits == traits {
                return Some(class);
            }
        }
        None
    }

    /// Appends values, each behind what stands before it.
    fn push_headed(
        &self,
        class: &ClassText,
        values: &[Value],
        out: &mut Vec<u8>,
    ) -> Result<(), Memory>
        requires text { IsTextOf self.now.graph.now.arena class.now.traits.0 class.now }
        requires values { AreValues self.now.graph.now.arena values.now }
        requires each { length values.now ≡ length (traits_at self.now.graph.now.arena class.now.traits.0).sealed }
        ensures { OnOk result (out.new.items ≡ out.old.items ++ joined (map (shown_pair self.now.numbering.now) (zip (traits_at self.now.graph.now.arena class.now.traits.0).sealed (values_of self.now.graph.now.arena values.now)))) }
    {
        for (place, value) in values.iter().enumerate() {
            class.heads[place].push(out)?;
            self.push_value(*value, out)?;
        }
        Ok(())
    }

    /// Appends an object of a class whose text is ready.
    fn push_known(
        &self,
        class: &ClassText,
        sealed: &[Value],
        members: &[(TextId, Value)],
        out: &mut Vec<u8>,
    ) -> Result<(), Memory>
        requires text { IsTextOf self.now.graph.now.arena class.now.traits.0 class.now }
        requires sealed { AreValues self.now.graph.now.arena sealed.now }
        requires each { length sealed.now ≡ length (traits_at self.now.graph.now.arena class.now.traits.0).sealed }
        requires members { ArePairs self.now.graph.now.arena members.now }
        ensures { OnOk result (out.new.items ≡ out.old.items ++ object_by self.now class.now.traits.0 members.now sealed.now) }
    {
        class.opening.push(out)?;
        self.push_headed(class, sealed, out)?;
        push_word(b"}", out)?;
        self.push_members(class.dynamic, members, out)
    }

    /// Appends an object: its class, its sealed members, and, where its class takes them, its dynamic ones in by-name order.
    pub(crate) fn push_object(
        &self,
        traits: TraitsId,
        sealed: &[Value],
        members: &[(TextId, Value)],
        out: &mut Vec<u8>,
    ) -> Result<(), Memory>
        requires traits { traits.0 < length self.now.graph.now.arena.traits }
        requires sealed { AreValues self.now.graph.now.arena sealed.now }
        requires each { length sealed.now ≡ length (traits_at self.now.graph.now.arena traits.0).sealed }
        requires members { ArePairs self.now.graph.now.arena members.now }
        ensures { OnOk result (out.new.items ≡ out.old.items ++ object_by self.now traits.0 members.now sealed.now) }
    {
        match self.class_text(traits) {
            Some(class) => self.push_known(class, sealed, members, out),
            None => self.push_unknown(traits, sealed, members, out),
        }
    }
}
