//! A worker may go to a thread of its own.
use crate::worker::Worker;
use amf_io::Hall;

fn sent<T: Send>(_value: &T) {}

fn _crosses<H: Hall>(worker: &Worker<H>) {
    sent(worker);
}
