//! The laws of heads and of faults: functions without a body, whose contracts are the laws.
ghost use Rattle.turn_frames.specs.Faults.{FaultsAreWithin};
ghost use Rattle.turn_frames.specs.Laws.{FramesAreOne, FramesAreRead, InputsAreSpelled, WholeFramesAreRead};

/// The law of heads: by counting alone, a turn's bytes are no other's, whatever they are. Frames are read as their turns, whatever comes
/// after them; no text has two readings; and an input is the frames of its turns, up to where no whole frame stands.
pub fn law_of_heads()
    ensures read { FramesAreRead }
    ensures whole { WholeFramesAreRead }
    ensures one { FramesAreOne }
    ensures spelled { InputsAreSpelled }
{}

/// The law of faults: a script of fewer than 2^40 bytes, as that of a turn, ends by one of the first four faults, at a place within it, or by none.
pub fn law_of_faults()
    ensures within { FaultsAreWithin }
{}
