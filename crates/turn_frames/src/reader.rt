//! Turns, read from a host in pieces.
ghost use Rattle.std.specs.Prelude.{◌≡◌, ◌⊎◌, ◌<◌, ◌≤◌, ◌++◌, ◌^◌, ◌+◌, ℕ, [], false, length, drop, IsTrue, IfOk, OnOk, IfErr, IfSome, IfNone, IsErrOf, Some, nat_lt, nat_le};
ghost use Rattle.host_port.specs.Limits.{input_limit};
ghost use Rattle.host_port.specs.Host.{GoesOn, KeepsDisk, KeepsSaid, RaisesTakesAlone, Rose};
ghost use Rattle.turn_frames.specs.Turns as turns;
ghost use Rattle.turn_frames.specs.Turns.{IsTurn, first_turn, turns_from};
ghost use Rattle.turn_frames.specs.Reads.{GotTurn, LooksLike};

use crate::TurnFault;
use crate::turn::{Front, Turn, look};
use host_port::{Host, INPUT_LIMIT};
use std::alloc::{AllocError, Global};
use std::marker::Model;

const PIECE: usize = 4096;

/// Reads the turns of an input, whatever pieces the host hands over. It asks for a piece only where no whole frame is at hand. After a
/// call that answered a fault it isn't used again.
#[derive(Drop)]
pub struct TurnReader {
    pending: Vec<u8>,
    offset: u64,
    ghost low: { offset ≤ 2 ^ 41 },
}

impl Model for TurnReader {
    ghost use Rattle.turn_frames.specs.Reads.{Unread};

    ghost Value = { Unread };

    ghost view = { λ r. record { pending = r.pending.items; offset = r.offset } };
}

impl TurnReader {
    /// A reader that stands at the input's first byte.
    pub fn new(alloc: Global) -> TurnReader
        ensures pending { result.pending ≡ [] }
        ensures offset { result.offset ≡ 0 }
    {
        TurnReader {
            pending: Vec::new(alloc),
            offset: 0,
        }
    }

    /// Takes a piece more; false at the end of the input.
    fn fill<H: Host>(&mut self, host: &mut H) -> Result<bool, TurnFault>
        ensures unread { IsTrue (H.told host.old).tells → OnOk result (self.new.pending ++ (H.told host.new).left ≡ self.old.pending ++ (H.told host.old).left) }
        ensures more { IfOk result (λ more. IsTrue more → length self.old.pending < length self.new.pending) }
        ensures end { IsTrue (H.told host.old).tells → IfOk result (λ more. more ≡ false → (H.told host.new).left ≡ []) }
        ensures same { IfOk result (λ more. more ≡ false → self.new.pending ≡ self.old.pending) }
        ensures offset { self.new.offset ≡ self.old.offset }
        ensures err { IfErr result (λ e. (e ≡ TurnFault.Failed) ⊎ (e ≡ TurnFault.Memory)) }
        ensures course { GoesOn (H.told host.old) (H.told host.new) }
        ensures disk { KeepsDisk (H.told host.old) (H.told host.new) }
        ensures said { KeepsSaid (H.told host.old) (H.told host.new) }
        ensures alone { RaisesTakesAlone (H.told host.old) (H.told host.new) }
        ensures cause { IsErrOf result TurnFault.Failed → Rose (H.told host.old).take_faults (H.told host.new).take_faults }
    {
        let mut piece = [0u8; PIECE];
        let Ok(count) = host.take(&mut piece) else {
            return Err(TurnFault::Failed);
        };
        if self.pending.extend_from_slice(&piece[..count]).is_err() {
            return Err(TurnFault::Memory);
        }
        Ok(count > 0)
    }

    /// The offset of the first byte at hand.
    fn place(&self) -> u64
        ensures { result ≡ self.now.offset }
    {
        self.offset
    }

    /// Whether bytes are at hand.
    fn has_bytes(&self) -> bool
        ensures { result ≡ nat_lt 0 (length self.now.pending) }
    {
        self.pending.len() > 0
    }

    /// Whether the input has too many bytes for a frame to begin here.
    fn is_far(&self) -> bool
        ensures { result ≡ nat_le input_limit self.now.offset }
    {
        self.offset >= INPUT_LIMIT
    }

    /// What the bytes at hand begin with.
    fn front(&self, alloc: Global) -> Result<Front, AllocError>
        ensures { IfOk result (λ look. LooksLike look self.now.pending) }
    {
        look(alloc, &self.pending)
    }

    /// Goes past the first bytes.
    fn go_past(&mut self, count: usize)
        requires count { count ≤ length self.old.pending }
        requires low { self.old.offset + count ≤ 2 ^ 41 }
        ensures pending { self.new.pending ≡ drop count self.old.pending }
        ensures offset { self.new.offset ≡ self.old.offset + count }
    {
        let left = self.pending.len() - count;
        self.pending.copy_within(count.., 0);
        self.pending.truncate(left);
        self.offset += count as u64;
    }

    /// The next turn, or none at the input's end.
    pub fn next_turn<H: Host>(
        &mut self,
        alloc: Global,
        host: &mut H,
    ) -> Result<Option<Turn>, TurnFault>
        ensures turn { IsTrue (H.told host.old).tells → GotTurn result (turns_from 0 self.old.offset (self.old.pending ++ (H.told host.old).left))
            (turns_from 0 self.new.offset (self.new.pending ++ (H.told host.new).left)) }
        ensures end { IsTrue (H.told host.old).tells → IfOk result (λ next. IfNone next ((H.told host.new).left ≡ [])) }
        ensures is { IfOk result (λ next. IfSome next IsTurn) }
        ensures advances { IfOk result (λ next. IfSome next (λ _. self.old.offset < self.new.offset)) }
        ensures low { IfOk result (λ next. IfSome next (λ _. self.new.offset ≤ 2 ^ 41)) }
        // A turn that is at hand is given without a call of the host: who waits for its answer before sending more isn't kept waiting.
        ensures ready { (turn : turns.Turn) → first_turn self.old.pending ≡ Some turn → H.told host.new ≡ H.told host.old }
        ensures course { GoesOn (H.told host.old) (H.told host.new) }
        ensures disk { KeepsDisk (H.told host.old) (H.told host.new) }
        ensures said { KeepsSaid (H.told host.old) (H.told host.new) }
        ensures alone { RaisesTakesAlone (H.told host.old) (H.told host.new) }
        ensures cause { IsErrOf result TurnFault.Failed → Rose (H.told host.old).take_faults (H.told host.new).take_faults }
    {
        'pieces: loop {
            if self.has_bytes() && self.is_far() {
                return Err(TurnFault::InputTooLong { at: self.place() });
            }
            match self.front(alloc) {
                Err(_) => return Err(TurnFault::Memory),
                Ok(Front::Broken) => return Err(TurnFault::NotFrame { at: self.place() }),
                Ok(Front::Whole { turn, size }) => {
                    self.go_past(size);
                    return Ok(Some(turn));
                }
                Ok(Front::Part) => {}
            }
            if !self.fill(host)? {
                if self.has_bytes() {
                    return Err(TurnFault::NotFrame { at: self.place() });
                }
                return Ok(None);
            }
        }
    }
}
