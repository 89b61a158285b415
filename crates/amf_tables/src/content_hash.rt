ghost use Rattle.std.specs.Prelude.{◌≡◌};
ghost use Rattle.std.specs.List.{fold};
ghost use Rattle.amf_tables.specs.ContentHash.{coded_hash, class_hash, write_code};

use amf_graph::Wrapped;
use std::hash::{DefaultHasher, Hasher};

/// Takes in codes of texts, one after another.
fn take_codes(state: &mut DefaultHasher, codes: &[u32])
    ensures { state.new ≡ fold write_code state.old codes.now }
{
    for code in codes {
        state.write_u32(*code);
    }
}

/// The hash of traits with members, by the codes of their texts.
pub(crate) fn hash_of_codes(start: DefaultHasher, class: u32, dynamic: bool, sealed: &[u32]) -> u64
    ensures { result ≡ coded_hash start class dynamic sealed.now }
{
    let mut state = start;
    state.write(&[u8::from(dynamic)]);
    state.write_u32(class);
    take_codes(&mut state, sealed);
    state.finish()
}

/// The hash of the traits of an externalizable class.
pub(crate) fn hash_of_class(start: DefaultHasher, class: Wrapped) -> u64
    ensures { result ≡ class_hash start class }
{
    let mut state = start;
    state.write(&[match class {
        Wrapped::ArrayCollection => 2,
        Wrapped::ArrayList => 3,
        Wrapped::ObjectProxy => 4,
    }]);
    state.finish()
}
