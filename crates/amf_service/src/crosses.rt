//! A registry may be shared among threads.
use crate::registry::Registry;

fn shared<T: Sync>(_value: &T) {}

fn _crosses(registry: &Registry) {
    shared(registry);
}
