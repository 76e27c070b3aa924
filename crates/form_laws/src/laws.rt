//! The law of faults: a function without a body, whose contract is the law.
ghost use Rattle.form_laws.specs.Laws.{PackagesAreFields, FaultsOfPackagesArePlaced, EventsAreFields, FaultsOfEventsArePlaced};

/// The law of faults. Bytes that are no encoding are refused at the first field that doesn't fit. What stands before it are
/// the first fields of some value, and no encoding is the same as these bytes up to the end of the field there.
pub fn law_of_form_faults()
    ensures package_fields { PackagesAreFields }
    ensures packages { FaultsOfPackagesArePlaced }
    ensures event_fields { EventsAreFields }
    ensures events { FaultsOfEventsArePlaced }
{}
