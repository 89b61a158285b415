use amf_desk::Desk;
use amf_io::Gate;
use amf_service::Registry;
use std::alloc::Global;
use std::hash::RandomState;
use std::sync::Wait;

/// What a worker has at hand while it serves links: the desk and the services, and who it is.
#[derive(Drop)]
pub struct AtHand<'a, R: Wait, G: Gate> {
    pub rt: &'a R,
    pub alloc: Global,
    /// The keys by which readers and writers look texts up; with none they are fixed.
    pub keys: Option<RandomState>,
    pub registry: &'a Registry,
    pub desk: &'a Desk,
    /// It is told of each call of the desk.
    pub gate: &'a G,
    /// The worker's number, by which the gate knows it.
    pub worker: u32,
}
