//! The law of short writes: a function without a body, whose contract is the law.
ghost use Rattle.system_port.specs.Writes.{ShortWritesGoOn};

/// The law of short writes. What is asked of a write that does a part, and of the one that goes on with it, a file can do: one whose
/// bytes are written by each call where they belong, and whose range is loose from the first call on.
pub fn law_of_short_writes()
    ensures short { ShortWritesGoOn }
{}
