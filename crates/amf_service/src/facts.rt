ghost use Rattle.amf_service.specs.ServiceLaws.{ServiceLaws};
ghost use Rattle.amf_service.specs.WorkedServices.{ServiceRows};

/// Worked facts of the shipped services and of the registry.
pub fn service_rows()
    ensures { ServiceRows }
{}

/// The shipped services, and every registry of lawful services, give isomorphic results and equal ends for isomorphic arguments.
pub fn service_laws()
    ensures { ServiceLaws }
{}
