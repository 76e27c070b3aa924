//! The laws of the encodings, as a function without a body whose contract they are.
ghost use Rattle.op_reading.specs.Laws.{PackagesAreReadAgain, PackagesAreSpelledSo, MoreThanPackagesIsLeftOver, NoPackageBeginsAnother, EventsAreReadAgain, EventsAreSpelledSo, MoreThanEventsIsLeftOver, NoEventBeginsAnother, EventsAreTested};

/// The laws of the encodings. What is encoded is read again, what is read was encoded so, and no encoding begins
/// another. Where bytes stand after an encoding, the fault is at the first of them. The test of `has_encoding` holds of just
/// the events that have an encoding.
pub fn law_of_encodings()
    ensures packages_again { PackagesAreReadAgain }
    ensures packages_spelled { PackagesAreSpelledSo }
    ensures packages_left { MoreThanPackagesIsLeftOver }
    ensures packages_apart { NoPackageBeginsAnother }
    ensures events_again { EventsAreReadAgain }
    ensures events_spelled { EventsAreSpelledSo }
    ensures events_left { MoreThanEventsIsLeftOver }
    ensures events_apart { NoEventBeginsAnother }
    ensures events_tested { EventsAreTested }
{}
