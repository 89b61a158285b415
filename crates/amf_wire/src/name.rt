ghost use Rattle.std.specs.Prelude.{◌≡◌, ℕ, ◌<◌, ◌↔◌, List, length, IfOk, OnOk, bytes_eq};
ghost use Rattle.std.specs.Cmp.{on_equiv, on_per, partial_equiv_from_equiv};
ghost use Rattle.std.specs.Cmp.Lexicographic.{nat_list_eq_equiv};
ghost use Rattle.std.specs.Result.{IsErrOf};
ghost use Rattle.amf_wire.specs.Text.{IsText, EndsText};
ghost use Rattle.amf_wire.specs.declared.name.NameEnd.TheVariants.{Memory};

use crate::memory::Memory;
use crate::text::first_bad;
use std::alloc::{AllocError, AllocFailed, Global};
use std::marker::Model;
use thiserror::Error;

/// A name, seen as its list of bytes: a text where `from_bytes` made it.
#[derive(Debug, Drop)]
pub struct Name {
    bytes: Vec<u8>,
}

impl Model for Name {
    ghost Value = { List ℕ };

    ghost view = { λ name. name.bytes.items };
}

impl PartialEq for Name {
    ghost eq = { bytes_eq };

    ghost laws = { on_per (λ name. name) (partial_equiv_from_equiv nat_list_eq_equiv) };

    fn eq(&self, other: &Name) -> bool {
        self.as_bytes() == other.as_bytes()
    }
}

impl Eq for Name {
    ghost laws = { on_equiv (λ name. name) nat_list_eq_equiv };
}

/// Why there is no name.
#[derive(Clone, Copy, Debug, PartialEq, Eq, Error)]
pub enum NameEnd {
    /// The bytes are no text: the longest front of whole characters ends here.
    #[error("no text from byte {0}")]
    BadText(usize),
    /// There was no memory left for it.
    #[error("no memory")]
    Memory,
}

impl From<AllocError> for NameEnd {
    ghost from_gives = { λ _ e. e ≡ Memory };

    fn from(_error: AllocError) -> NameEnd {
        NameEnd::Memory
    }
}

impl<T: Drop> From<AllocFailed<T>> for NameEnd {
    ghost from_gives = { λ _ e. e ≡ Memory };

    fn from(_error: AllocFailed<T>) -> NameEnd {
        NameEnd::Memory
    }
}

impl Name {
    /// The name of these bytes. `BadText` comes exactly where they are no text, and says where the longest front of whole
    /// characters ends; `Memory` where there is no room for a copy of them.
    pub fn from_bytes(alloc: Global, bytes: &[u8]) -> Result<Name, NameEnd>
        ensures name { IfOk result (λ name. name ≡ bytes.now) }
        ensures text { OnOk result (IsText bytes.now) }
        ensures bad { (n : ℕ) → IsErrOf result (NameEnd.BadText n) ↔ ((n < length bytes.now) × EndsText bytes.now n) }
        ensures memory { IsErrOf result NameEnd.Memory → IsText bytes.now }
    {
        if let Some(at) = first_bad(bytes) {
            return Err(NameEnd::BadText(at));
        }
        let bytes = bytes.to_vec(alloc)?;
        Ok(Name { bytes })
    }

    /// The name of any bytes, which need not be a text: what stands above may keep a message so. It gives up where there
    /// is no memory.
    pub fn of_bytes(alloc: Global, bytes: &[u8]) -> Result<Name, Memory>
        ensures { IfOk result (λ name. name ≡ bytes.now) }
    {
        Ok(Name {
            bytes: bytes.to_vec(alloc)?,
        })
    }

    /// Its bytes.
    pub fn as_bytes(&self) -> &[u8]
        ensures { result.now ≡ self.now }
    {
        self.bytes.as_slice()
    }

    /// A name of the same bytes. It gives up where there is no memory.
    pub fn copy(&self, alloc: Global) -> Result<Name, Memory>
        ensures { IfOk result (λ name. name ≡ self.now) }
    {
        let bytes = self.bytes.to_vec(alloc)?;
        Ok(Name { bytes })
    }
}
