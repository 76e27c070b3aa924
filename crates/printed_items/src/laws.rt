//! The law of printed items: a function without a body, whose contract is the law.
ghost use Rattle.printed_items.specs.Printed.{PrintedItemsAreCut};

/// The law of printed items: the bytes of items that may stand in a script are cut into these items, and no fault ends them, where
/// they are fewer than 2^40.
pub fn law_of_printed_items()
    ensures { PrintedItemsAreCut }
{}
