ghost use Rattle.std.specs.Prelude.{◌≡◌, ◌≤◌, ◌<◌, ◌↔◌, ◌^◌, length, IfOk, OnOk};
ghost use Rattle.std.specs.Result.{IsErrOf};
ghost use Rattle.amf_graph.specs.Rooted.{content};
ghost use Rattle.amf_sol.specs.SharedObject.{HasHolder};
ghost use Rattle.amf_sol.specs.StoredFile.{IsStoredFile};
ghost use Rattle.amf_wire.specs.Text.{IsText};

use crate::holder::is_holder;
use crate::{SolEnd, SolVersion};
use amf_graph::Rooted;
use amf_wire::Name;
use std::alloc::Global;
use std::marker::Model;

/// The most bytes of a name.
const MAX_NAME: usize = 65_535;

/// A shared object: its name, the format of its values, and the graph of the object that holds its pairs.
pub struct SharedObject {
    name: Name,
    version: SolVersion,
    holder: Rooted,
}

impl Drop for SharedObject {
    /// Lets its parts go. Written out, it is proved once; what is derived is proved at each place where one is let go.
    fn drop(self) {
        let SharedObject {
            name: _,
            version: _,
            holder: _,
        } = self;
    }
}

/// Refuses a name that is too long, and a graph whose root is no holder.
fn expect_parts(alloc: Global, name: &Name, holder: &Rooted) -> Result<(), SolEnd>
    ensures short { OnOk result (length name.now < 2 ^ 16) }
    ensures holder { OnOk result (HasHolder (content holder.now)) }
    ensures long { IsErrOf result SolEnd.LongName ↔ (2 ^ 16 ≤ length name.now) }
    ensures no_holder { IsErrOf result SolEnd.NotAHolder → HasHolder (content holder.now) → ⊥ }
{
    if name.as_bytes().len() > MAX_NAME {
        return Err(SolEnd::LongName);
    }
    if !is_holder(alloc, holder)? {
        return Err(SolEnd::NotAHolder);
    }
    Ok(())
}

impl Model for SharedObject {
    ghost use Rattle.amf_sol.specs.StoredFile.{StoredFile, IsStoredFile};

    ghost Value = { StoredFile };

    ghost view = { λ o. record { name = o.name; version = o.version; holder = o.holder } };

    ghost invariant = { λ o. IsStoredFile (record { name = o.name; version = o.version; holder = o.holder }) };
}

impl SharedObject {
    /// The shared object of this name, with the pairs of an object. The name is a text.
    ///
    /// `LongName` comes exactly where the name has more than 65,535 bytes. `NotAHolder` comes where it has not, and exactly
    /// where the root of the graph is not a dynamic object without class and sealed names, or where something that the root
    /// reaches holds it. `Memory` comes where there is no room for looking.
    pub fn new(
        alloc: Global,
        name: Name,
        version: SolVersion,
        holder: Rooted,
    ) -> Result<SharedObject, SolEnd>
        requires text { IsText name }
        ensures made { IfOk result (λ o. o ≡ record { name = name; version = version; holder = holder }) }
        ensures holder { OnOk result (HasHolder (content holder)) }
        ensures long { IsErrOf result SolEnd.LongName ↔ (2 ^ 16 ≤ length name) }
        ensures no_holder { IsErrOf result SolEnd.NotAHolder → HasHolder (content holder) → ⊥ }
    {
        expect_parts(alloc, &name, &holder)?;
        Ok(SharedObject {
            name,
            version,
            holder,
        })
    }

    /// The shared object of a text and of a graph whose root is known to be a holder.
    pub(crate) fn of_parts(name: Name, version: SolVersion, holder: Rooted) -> SharedObject
        requires { IsStoredFile (record { name = name; version = version; holder = holder }) }
        ensures { result ≡ record { name = name; version = version; holder = holder } }
    {
        SharedObject {
            name,
            version,
            holder,
        }
    }

    /// What is true of every shared object. It does nothing.
    pub fn is_stored(&self)
        ensures { IsStoredFile self.now }
    {
        let _ = &self.name;
    }

    /// Its name.
    pub fn name(&self) -> &Name
        ensures { result.now ≡ self.now.name }
    {
        &self.name
    }

    /// The format of its values.
    pub fn version(&self) -> SolVersion
        ensures { result ≡ self.now.version }
    {
        self.version
    }

    /// The graph whose root holds the pairs.
    pub fn holder(&self) -> &Rooted
        ensures { result.now ≡ self.now.holder }
    {
        &self.holder
    }
}
