//! The law of places: a function without a body, whose contract is the law.
ghost use Rattle.recently_used.specs.Recent.{NoMorePlaces};

/// The law of places. It asks that each of those that hold something stands at a place that was used last. Then no more
/// of them hold something than there are such places.
pub fn law_of_places()
    ensures few { NoMorePlaces }
{}
