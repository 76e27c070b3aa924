//! A block of lines, up to the line that ends it.
ghost use Rattle.std.specs.Prelude.{◌≡◌, ◌≢◌, false, ◌+◌, ◌<◌, ◌≤◌, ◌^◌, ℕ, [], ◌++◌, List, Bool, length, drop, take, slice_index, IsTrue, IfOk, OnOk, IfErr, IfSome, IsErrOf, if◌then◌else◌, string_bytes, Ok};
ghost use Rattle.std.specs.List.{slice_split};
ghost use Rattle.host_port.specs.Limits.{block_limit};
ghost use Rattle.host_port.specs.Host.{GoesOn, KeepsDisk, KeepsSaid, RaisesTakesAlone, Rose};
ghost use Rattle.host_port.specs.Cut.{cut_block, script_from, after_block, is_dot, is_lf, text_with, without_cr};
ghost use Rattle.host_port.specs.Reads.{AddsRun, ArePlain, GotBlock, GotBlockLine, BlockLine, FarFault, is_feed, read_so_far};

use super::unread::{Stop, Unread, line_bytes};
use super::{BLOCK_LIMIT, INPUT_LIMIT, LineFault};
use crate::Host;
use memchr::memchr;
use std::alloc::{AllocError, Global};

/// How many lines are read one by one where none at hand was plain, before plain ones are looked for again.
const WAIT: u32 = 15;

/// The lines of a block so far: their text, or the offset of the first byte that is no UTF-8.
#[derive(Drop)]
pub struct Block {
    pub text: String,
    pub not_text: Option<u64>,
}

/// The fault of a line of a block that is not read to its end.
fn far_fault(start: u64) -> LineFault
    requires { start ≤ 2 ^ 40 }
    ensures fault { FarFault start result }
    ensures never { (result ≢ LineFault.Memory) × (result ≢ LineFault.Failed) }
{
    if start + BLOCK_LIMIT < INPUT_LIMIT {
        LineFault::BlockTooLong {
            at: start + BLOCK_LIMIT,
        }
    } else {
        LineFault::InputTooLong { at: INPUT_LIMIT }
    }
}

fn is_feed(stop: Stop) -> bool
    ensures { result ≡ is_feed stop }
{
    match stop {
        Stop::Feed => true,
        Stop::Close => false,
        Stop::Far => false,
    }
}

/// Whether a line's bytes up to its line feed stand in a block's text as they are, and don't end it.
fn is_plain(raw: &[u8]) -> bool
    ensures plain { IsTrue result → (without_cr raw.now ≡ raw.now) × (is_dot raw.now ≡ false) }
{
    let len = raw.len();
    len == 0 || (raw[len - 1] != b'\r' && (len > 1 || raw[0] != b'.'))
}

/// The first line feed from an offset on.
fn next_feed(bytes: &[u8], from: usize) -> Option<usize>
    requires { from ≤ length bytes.now }
    ensures { IfSome result (λ i. (from ≤ i) × (i < length bytes.now) × (slice_index bytes.now i ≡ 10) × ((k : ℕ) → from ≤ k → k < i → slice_index bytes.now k ≢ 10)) }
{
    match memchr(b'\n', &bytes[from..]) {
        Some(at) => Some(from + at),
        None => None,
    }
}

/// How many bytes at the front are whole lines that are plain, up to the first that isn't, and within `room` bytes.
fn plain_end(bytes: &[u8], room: usize) -> usize
    ensures within { (result ≤ length bytes.now) × (result ≤ room) }
    ensures plain { ArePlain (take result bytes.now) }
{
    let mut end = 0;
    'lines: loop {
        match next_feed(bytes, end) {
            Some(at) if at < room && is_plain(&bytes[end..at]) => end = at + 1,
            _ => return end,
        }
    }
}

impl Block {
    /// A block without a line; `alloc` is where its text takes its memory from.
    pub fn new(alloc: Global) -> Block {
        Block {
            text: String::new(alloc),
            not_text: None,
        }
    }

    fn clear(&mut self)
        ensures empty { read_so_far self.new ≡ Ok [] }
        ensures short { string_bytes self.new.text ≡ [] }
    {
        self.text.clear();
        self.not_text = None;
    }

    /// Adds a line, which stands at an offset of the input.
    #[tactic(auto, using(crate::proofs::ScriptCuts::text_lemmas))]
    fn add(&mut self, offset: u64, line: &[u8]) -> Result<(), AllocError>
        requires { offset + length line.now < 2 ^ 64 }
        ensures added { OnOk result (read_so_far self.new ≡ text_with offset (read_so_far self.old) line.now) }
        ensures short { OnOk result (length (string_bytes self.new.text) ≤ length (string_bytes self.old.text) + length line.now + 1) }
    {
        if self.not_text.is_some() {
            return Ok(());
        }
        match std::str::from_utf8(line) {
            Err(error) => {
                self.not_text = Some(offset + error.valid_up_to() as u64);
                Ok(())
            }
            Ok(line) => {
                self.text.push_str(line)?;
                self.text.push('\n')
            }
        }
    }

    /// Adds lines that are plain, or passes them where a line before is no UTF-8; false where these are none.
    fn add_run(&mut self, run: &[u8]) -> Result<bool, AllocError>
        ensures added { IfOk result (λ added. IsTrue added → AddsRun (read_so_far self.old) run.now (read_so_far self.new)) }
        ensures same { IfOk result (λ added. added ≡ false → read_so_far self.new ≡ read_so_far self.old) }
        ensures short { IfOk result (λ added. length (string_bytes self.new.text) ≤ length (string_bytes self.old.text) + (if added then length run.now else 0)) }
    {
        if self.not_text.is_some() {
            return Ok(true);
        }
        match std::str::from_utf8(run) {
            Ok(lines) => {
                self.text.push_str(lines)?;
                Ok(true)
            }
            Err(_) => Ok(false),
        }
    }

    /// Adds at once the lines at hand that are plain, of UTF-8 and within the block's limit, or none of them. After a call that found none
    /// the next few, counted by `wait`, don't look.
    fn add_plain(
        &mut self,
        unread: &mut Unread,
        start: u64,
        wait: &mut u32,
    ) -> Result<(), AllocError>
        requires started { start ≤ unread.old.offset }
        requires near { unread.old.offset ≤ start + block_limit }
        ensures step { OnOk result ((takes : List ℕ → Bool) (line left : List ℕ) →
            cut_block takes line start unread.old.offset (read_so_far self.old) (slice_split is_lf (unread.old.pending ++ left))
            ≡ cut_block takes line start unread.new.offset (read_so_far self.new) (slice_split is_lf (unread.new.pending ++ left))) }
        ensures near { OnOk result (unread.new.offset ≤ start + block_limit) }
        ensures short { OnOk result (length (string_bytes self.old.text) + start ≤ unread.old.offset → length (string_bytes self.new.text) + start ≤ unread.new.offset) }
        ensures later { unread.old.offset ≤ unread.new.offset }
    {
        if *wait > 0 {
            *wait -= 1;
            return Ok(());
        }
        let room = (BLOCK_LIMIT - (unread.offset - start)) as usize;
        let bytes = unread.pending.as_slice();
        let run = plain_end(bytes, room);
        if run > 0 && self.add_run(&bytes[..run])? {
            unread.go_past(run);
        } else {
            *wait = WAIT;
        }
        Ok(())
    }

    /// What a line is, and the way past it; true where it is the block's end.
    #[tactic(auto, unfolding(crate::specs::Cut::block_line))]
    fn line_at(
        &mut self,
        unread: &mut Unread,
        start: u64,
        len: usize,
        stop: Stop,
    ) -> Result<bool, LineFault>
        requires len { len ≤ length unread.old.pending }
        requires feed { stop ≡ Stop.Feed → len < length unread.old.pending }
        requires near { stop ≢ Stop.Far → unread.old.offset + len < 2 ^ 40 }
        requires start { start ≤ unread.old.offset }
        ensures line { BlockLine stop start unread.old.offset (read_so_far self.old) (read_so_far self.new) (take len unread.old.pending) result }
        ensures pending { OnOk result (unread.new.pending ≡ drop (if is_feed stop then len + 1 else len) unread.old.pending) }
        ensures offset { OnOk result (unread.new.offset ≡ unread.old.offset + (if is_feed stop then len + 1 else len)) }
        ensures short { OnOk result (length (string_bytes self.old.text) + start ≤ unread.old.offset → length (string_bytes self.new.text) + start ≤ unread.new.offset) }
        ensures near { IfOk result (λ end. end ≡ false → unread.new.offset ≤ start + block_limit) }
        ensures same { IfOk result (λ end. IsTrue end → string_bytes self.new.text ≡ string_bytes self.old.text) }
        ensures not_failed { IfErr result (λ e. e ≢ LineFault.Failed) }
        ensures later { unread.old.offset ≤ unread.new.offset }
    {
        if let Stop::Far = stop {
            return Err(far_fault(start));
        }
        let ended = is_feed(stop);
        let past = if ended { len + 1 } else { len };
        let line = line_bytes(&unread.pending.as_slice()[..len], ended);
        if line.len() == 1 && line[0] == b'.' {
            unread.go_past(past);
            return Ok(true);
        }
        let behind = unread.offset + past as u64;
        if behind - start > BLOCK_LIMIT {
            return Err(far_fault(start));
        }
        if !ended {
            return Err(LineFault::UnendedBlock { at: behind });
        }
        if self.add(unread.offset, line).is_err() {
            return Err(LineFault::Memory);
        }
        unread.go_past(past);
        Ok(false)
    }

    /// One line of the block that began at an offset; true where it is the block's end.
    fn line<H: Host>(
        &mut self,
        unread: &mut Unread,
        host: &mut H,
        start: u64,
    ) -> Result<bool, LineFault>
        requires { start ≤ unread.old.offset }
        ensures step { IsTrue (H.told host.old).tells → (takes : List ℕ → Bool) (line : List ℕ) → GotBlockLine result
            (cut_block takes line start unread.old.offset (read_so_far self.old) (slice_split is_lf (unread.old.pending ++ (H.told host.old).left)))
            (cut_block takes line start unread.new.offset (read_so_far self.new) (slice_split is_lf (unread.new.pending ++ (H.told host.new).left)))
            (after_block line (read_so_far self.new) (script_from takes unread.new.offset (unread.new.pending ++ (H.told host.new).left))) }
        ensures short { OnOk result (length (string_bytes self.old.text) + start ≤ unread.old.offset → length (string_bytes self.new.text) + start ≤ unread.new.offset) }
        ensures near { IfOk result (λ end. end ≡ false → unread.new.offset ≤ start + block_limit) }
        ensures same { IfOk result (λ end. IsTrue end → string_bytes self.new.text ≡ string_bytes self.old.text) }
        ensures later { unread.old.offset ≤ unread.new.offset }
        ensures advances { IfOk result (λ end. end ≡ false → unread.old.offset < unread.new.offset) }
        ensures course { GoesOn (H.told host.old) (H.told host.new) }
        ensures disk { KeepsDisk (H.told host.old) (H.told host.new) }
        ensures said { KeepsSaid (H.told host.old) (H.told host.new) }
        ensures alone { RaisesTakesAlone (H.told host.old) (H.told host.new) }
        ensures cause { IsErrOf result LineFault.Failed → Rose (H.told host.old).take_faults (H.told host.new).take_faults }
    {
        let used = unread.offset - start;
        let longest = if used + 2 >= BLOCK_LIMIT {
            2
        } else {
            (BLOCK_LIMIT - used) as usize
        };
        let (len, stop) = unread.piece_end(host, longest)?;
        self.line_at(unread, start, len, stop)
    }

    /// All lines up to one that is just `.`.
    pub fn read<H: Host>(&mut self, unread: &mut Unread, host: &mut H) -> Result<(), LineFault>
        ensures block { IsTrue (H.told host.old).tells → (takes : List ℕ → Bool) (line : List ℕ) → GotBlock result (string_bytes self.new.text) line
            (cut_block takes line unread.old.offset unread.old.offset (Ok []) (slice_split is_lf (unread.old.pending ++ (H.told host.old).left)))
            (script_from takes unread.new.offset (unread.new.pending ++ (H.told host.new).left)) }
        ensures short { OnOk result (length (string_bytes self.new.text) ≤ block_limit) }
        ensures later { unread.old.offset ≤ unread.new.offset }
        ensures course { GoesOn (H.told host.old) (H.told host.new) }
        ensures disk { KeepsDisk (H.told host.old) (H.told host.new) }
        ensures said { KeepsSaid (H.told host.old) (H.told host.new) }
        ensures alone { RaisesTakesAlone (H.told host.old) (H.told host.new) }
        ensures cause { IsErrOf result LineFault.Failed → Rose (H.told host.old).take_faults (H.told host.new).take_faults }
    {
        let start = unread.offset;
        self.clear();
        let mut wait = 0;
        'lines: loop {
            if self.add_plain(unread, start, &mut wait).is_err() {
                return Err(LineFault::Memory);
            }
            if self.line(unread, host, start)? {
                return match self.not_text {
                    Some(at) => Err(LineFault::NotText { at }),
                    None => Ok(()),
                };
            }
        }
    }
}
