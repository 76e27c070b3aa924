//! The items of a turn's script.
ghost use Rattle.std.specs.Prelude.{◌≡◌, ◌<◌, ◌≤◌, ◌^◌, false, IfOk, OnOk, IfSome};
ghost use Rattle.script_items.specs.Items.{GotItem, IsShortItem, script};

use host_port::{LineFault, Lines, MemoryHost};
use script_items::{Item, next_item};
use std::alloc::{AllocError, Global};
use std::marker::Model;

/// The items of a script whose bytes are all at hand.
#[derive(Drop)]
pub(crate) struct TurnItems {
    lines: Lines,
    host: MemoryHost,
}

impl Model for TurnItems {
    ghost use Rattle.std.specs.Prelude.{◌++◌};
    ghost use Rattle.host_port.specs.Cut.{script_from};
    ghost use Rattle.host_port.specs.Memory.{told_of};
    ghost use Rattle.plain_repository.specs.Lines.{takes_block};
    ghost use Rattle.store_turns.specs.Items.{Left};

    ghost Value = { Left };

    ghost view = { λ t. record {
      script = script_from takes_block t.lines.offset (t.lines.pending ++ (told_of t.host).left);
      offset = t.lines.offset;
      failed = t.lines.failed;
    } };
}

impl TurnItems {
    /// The items of these bytes.
    pub(crate) fn new(alloc: Global, bytes: Vec<u8>) -> Result<TurnItems, AllocError>
        ensures script { IfOk result (λ items. items.script ≡ script bytes.items) }
        ensures fresh { IfOk result (λ items. items.failed ≡ false) }
    {
        let lines = Lines::new(alloc)?;
        let host = MemoryHost::new(alloc, bytes, u32::MAX, Vec::new(alloc), Vec::new(alloc));
        Ok(TurnItems { lines, host })
    }

    /// The next item, or none at the script's end.
    pub(crate) fn next(&mut self, alloc: Global) -> Result<Option<Item>, LineFault>
        requires fresh { self.old.failed ≡ false }
        ensures item { GotItem result self.old.script self.new.script }
        ensures short { IfOk result (λ next. IfSome next IsShortItem) }
        ensures advances { IfOk result (λ next. IfSome next (λ _. self.old.offset < self.new.offset)) }
        ensures low { self.new.offset ≤ 2 ^ 40 }
        ensures fresh { OnOk result (self.new.failed ≡ false) }
    {
        next_item(alloc, &mut self.lines, &mut self.host)
    }
}
