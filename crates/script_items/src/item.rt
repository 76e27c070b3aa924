//! An item of a script: a line, and the block that follows it where it takes one.
ghost use Rattle.std.specs.Prelude.{◌≡◌, ◌++◌, ◌^◌, ◌<◌, ◌≤◌, [], IfOk, OnOk, IfErr, IfSome, IfNone, IsErrOf, IsTrue, false};
ghost use Rattle.host_port.specs.Host.{GoesOn, KeepsDisk, KeepsSaid, RaisesTakesAlone, Rose};
ghost use Rattle.host_port.specs.Cut.{script_from};
ghost use Rattle.plain_repository.specs.Lines.{is_skipped, takes_block};
ghost use Rattle.script_items.specs.Items.{IsShortItem, GotItem};

use host_port::{Got, Host, LineFault, Lines};
use std::alloc::Global;
use std::marker::Model;
use texts::Text;

/// A line, and its block.
#[derive(Drop)]
pub struct Item {
    line: Text,
    block: Option<Text>,
}

impl Model for Item {
    ghost use Rattle.host_port.specs.Cut as cut;

    ghost Value = { cut.Item };

    ghost view = { λ i. record { line = i.line; block = i.block } };
}

/// Whether a line gets no reply: an empty one, or one that begins with `#`.
#[tactic(auto, unfolding(plain_repository::specs::Lines::is_skipped))]
fn is_skipped(line: &str) -> bool
    ensures { result ≡ is_skipped line.now }
{
    match line.as_bytes() {
        [] => true,
        [first, ..] => *first == b'#',
    }
}

impl Item {
    /// An item of these texts.
    pub(crate) fn new(line: Text, block: Option<Text>) -> Item
        ensures { result ≡ record { line = line; block = block } }
    {
        Item { line, block }
    }

    /// The line, without its line feed and a carriage return right before that.
    pub fn line(&self) -> &str
        ensures { result.now ≡ self.now.line }
    {
        self.line.as_str()
    }

    /// The text of the block, where the line takes one.
    pub fn block(&self) -> &Option<Text>
        ensures { result.now ≡ self.now.block }
    {
        &self.block
    }

    /// Whether the item gets no reply.
    pub fn is_skipped(&self) -> bool
        ensures { result ≡ is_skipped self.now.line }
    {
        is_skipped(self.line.as_str())
    }
}

/// Whether the first word is that of a command with a block.
#[tactic(auto, unfolding(plain_repository::specs::Lines::takes_block))]
fn takes_block(line: &str) -> bool
    ensures { result ≡ takes_block line.now }
{
    let word = match line.split_once(' ') {
        None => line,
        Some((word, _)) => word,
    };
    word == "init" || word == "evolve" || word == "import" || word == "load"
}

/// A copy of what was read last.
fn read_last(alloc: Global, lines: &Lines) -> Result<Text, LineFault>
    ensures ok { IfOk result (λ text. text ≡ lines.now.text) }
    ensures err { IfErr result (λ e. e ≡ LineFault.Memory) }
{
    match Text::new(alloc, lines.text()) {
        Ok(text) => Ok(text),
        Err(_) => Err(LineFault::Memory),
    }
}

/// The next item of the script, or none at its end.
pub fn next_item<H: Host>(
    alloc: Global,
    lines: &mut Lines,
    host: &mut H,
) -> Result<Option<Item>, LineFault>
    requires fresh { lines.old.failed ≡ false }
    ensures item { IsTrue (H.told host.old).tells → GotItem result (script_from takes_block lines.old.offset (lines.old.pending ++ (H.told host.old).left))
        (script_from takes_block lines.new.offset (lines.new.pending ++ (H.told host.new).left)) }
    ensures end { IsTrue (H.told host.old).tells → IfOk result (λ next. IfNone next ((H.told host.new).left ≡ [])) }
    ensures short { IfOk result (λ next. IfSome next IsShortItem) }
    ensures advances { IfOk result (λ next. IfSome next (λ _. lines.old.offset < lines.new.offset)) }
    ensures low { lines.new.offset ≤ 2 ^ 40 }
    ensures fresh { OnOk result (lines.new.failed ≡ false) }
    ensures course { GoesOn (H.told host.old) (H.told host.new) }
    ensures disk { KeepsDisk (H.told host.old) (H.told host.new) }
    ensures said { KeepsSaid (H.told host.old) (H.told host.new) }
    ensures alone { RaisesTakesAlone (H.told host.old) (H.told host.new) }
    ensures cause { IsErrOf result LineFault.Failed → Rose (H.told host.old).take_faults (H.told host.new).take_faults }
{
    if let Got::End = lines.next_line(host)? {
        return Ok(None);
    }
    let line = read_last(alloc, lines)?;
    if !takes_block(line.as_str()) {
        return Ok(Some(Item { line, block: None }));
    }
    lines.next_block(host)?;
    let block = Some(read_last(alloc, lines)?);
    Ok(Some(Item { line, block }))
}
