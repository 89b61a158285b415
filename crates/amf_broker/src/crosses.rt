//! A broker may go to another thread.
use crate::broker::Broker;

fn sent<T: Send>(_value: &T) {}

fn _crosses(broker: &Broker) {
    sent(broker);
}
