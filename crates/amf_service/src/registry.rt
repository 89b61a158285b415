ghost use Rattle.std.specs.Prelude.{◌≡◌, ◌≤◌, map, List, ℕ, IfOk, OnOk, IsErrOf};
ghost use Rattle.std.specs.List.{AllByRecursion};
ghost use Rattle.amf_graph.specs.Bounds.{weight};
ghost use Rattle.amf_graph.specs.Rooted.{content};
ghost use Rattle.amf_service.specs.Meaning.{IsLawful, asked, heaviest_arguments, heaviest_result};
ghost use Rattle.amf_service.specs.Registry.{called, services_by, AnswersCall, AreDistinct, IsFirstRepeated};
ghost use Rattle.amf_service.specs.ServiceLaws.{CallsMatch};
ghost use Rattle.amf_service.specs.declared.registry.RegistryEnd.TheVariants as registry_end;

use crate::{Service, ServiceEnd};
use amf_graph::Rooted;
use amf_wire::Name;
use indexmap::IndexMap;
use std::alloc::{AllocError, AllocFailed, Global};

/// Services by their names.
pub struct Registry {
    /// Each service under the bytes of its name.
    pub services: IndexMap<Vec<u8>, Box<dyn Service>>,
}

impl Drop for Registry {
    /// Lets its parts go. Written out, it is proved once; what is derived is proved at each place where one is let go.
    fn drop(self) {
        let Registry { services: _ } = self;
    }
}

/// Why there is no registry.
#[derive(Debug, Drop)]
pub enum RegistryEnd {
    /// The name stands twice.
    DuplicateService(Name),
    /// There was no memory left for it.
    Memory,
}

impl From<AllocError> for RegistryEnd {
    ghost from_gives = { λ _ e. e ≡ registry_end.Memory };

    fn from(_error: AllocError) -> RegistryEnd {
        RegistryEnd::Memory
    }
}

impl<T: Drop> From<AllocFailed<T>> for RegistryEnd {
    ghost from_gives = { λ _ e. e ≡ registry_end.Memory };

    fn from(_error: AllocFailed<T>) -> RegistryEnd {
        RegistryEnd::Memory
    }
}

/// Why a call has no result.
#[derive(Debug, Drop)]
pub enum CallEnd {
    /// No service has the name.
    NoService,
    /// The service does not know the operation.
    NoOperation,
    /// The operation has no result for these arguments: a text of at most 65,535 bytes.
    Fault(Name),
    /// There was no memory left for it.
    Memory,
}

/// What a service answers, as the answer of a call.
fn answered(
    alloc: Global,
    service: &Box<dyn Service>,
    operation: &Name,
    args: &Rooted,
) -> Result<Rooted, CallEnd>
    requires { weight args.now.arena ≤ heaviest_arguments }
    ensures answer { AnswersCall (asked (record { knows = knows service.now; gives = gives service.now }) operation.now (content args.now)) result }
    ensures light { IfOk result (λ graph. weight graph.arena ≤ heaviest_result) }
{
    match service.answers(alloc, operation, args) {
        Ok(graph) => Ok(graph),
        Err(ServiceEnd::Unknown) => Err(CallEnd::NoOperation),
        Err(ServiceEnd::Fault(text)) => Err(CallEnd::Fault(text)),
        Err(ServiceEnd::Memory) => Err(CallEnd::Memory),
    }
}

/// The law of one service.
fn obeys_the_law(service: &Box<dyn Service>)
    ensures { IsLawful (gives service.now) }
{
    service.is_lawful();
}

impl Registry {
    /// The registry of these services. `DuplicateService` comes exactly where a name stands twice, and has the first that
    /// repeats; `Memory` where there is no room.
    pub fn new(
        alloc: Global,
        entries: Vec<(Name, Box<dyn Service>)>,
    ) -> Result<Registry, RegistryEnd>
        ensures entries { IfOk result (λ registry. map (λ e. (e.0.items, e.1)) registry.services.entries ≡ entries.items) }
        ensures distinct { OnOk result (AreDistinct (map (λ e. e.0) entries.items)) }
        ensures repeated { (x : List ℕ) → IsErrOf result (RegistryEnd.DuplicateService x) → IsFirstRepeated (map (λ e. e.0) entries.items) x }
    {
        let mut services = IndexMap::new(alloc);
        for (name, service) in entries {
            if services.contains_key(name.as_bytes()) {
                return Err(RegistryEnd::DuplicateService(name));
            }
            services.insert(name.as_bytes().to_vec(alloc)?, service)?;
        }
        Ok(Registry { services })
    }

    /// What the service of this name answers. The weight of the arguments is at most 2^21, and that of a result at most 2^26.
    /// `NoService` comes exactly where no service has the name, `NoOperation` exactly where that service does not know the
    /// operation, `Fault` exactly where the operation gives that fault, and `Memory` where there is no room.
    pub fn call(
        &self,
        alloc: Global,
        service: &Name,
        operation: &Name,
        args: &Rooted,
    ) -> Result<Rooted, CallEnd>
        requires { weight args.now.arena ≤ heaviest_arguments }
        ensures answer { AnswersCall (called (services_by self.now.services.entries (λ x. x.items) knows gives) service.now operation.now (content args.now)) result }
        ensures light { IfOk result (λ graph. weight graph.arena ≤ heaviest_result) }
    {
        match self.services.get(service.as_bytes()) {
            Some(found) => answered(alloc, found, operation, args),
            None => Err(CallEnd::NoService),
        }
    }

    /// The law of every service here: whole isomorphic arguments give isomorphic results and equal faults. It changes nothing.
    pub fn are_lawful(&self)
        ensures { AllByRecursion (λ e. IsLawful e.means.gives) (services_by self.now.services.entries (λ x. x.items) knows gives) }
    {
        for service in self.services.values() {
            obeys_the_law(service);
        }
    }

    /// The law of the service of this name: for isomorphic arguments it gives isomorphic results and equal ends. It changes
    /// nothing.
    pub fn is_lawful(&self, name: &Name)
        ensures { CallsMatch (services_by self.now.services.entries (λ x. x.items) knows gives) name.now }
    {
        match self.services.get(name.as_bytes()) {
            Some(found) => obeys_the_law(found),
            None => {}
        }
    }
}
