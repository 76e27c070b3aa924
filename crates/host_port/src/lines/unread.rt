//! The bytes that a host handed over and that are not read yet.
ghost use Rattle.std.specs.Prelude.{◌≡◌, ◌⊎◌, ◌≢◌, false, ◌+◌, ◌<◌, ◌≤◌, ◌^◌, ℕ, [], ◌++◌, length, drop, take, slice_index, IsTrue, IfOk, OnOk, IfErr, IfSome, IfNone, IsErrOf, if◌then◌else◌, string_bytes, Ok};
ghost use Rattle.host_port.specs.Limits.{line_limit, input_limit};
ghost use Rattle.host_port.specs.Host.{GoesOn, KeepsDisk, KeepsSaid, RaisesTakesAlone, Rose};
ghost use Rattle.host_port.specs.Cut.{next_line_of, line_bytes, line_or_end, text_at, without_cr};
ghost use Rattle.host_port.specs.Reads.{IsLineFault, IsTextFault, GotLine, PastLine};

use super::pending::Pending;
use super::{Got, INPUT_LIMIT, LINE_LIMIT, LineFault};
use crate::Host;
use memchr::memchr;
use std::alloc::Global;

const PIECE: usize = 4096;

/// How the search for a line's end ended.
#[derive(Clone, Copy)]
pub enum Stop {
    /// At a line feed.
    Feed,
    /// At the input's end.
    Close,
    /// Neither came within the bytes that were looked at.
    Far,
}

/// The bytes at hand from an offset in the input on.
#[derive(Drop)]
pub struct Unread {
    pub pending: Pending,
    pub offset: u64,
    ghost within: { offset + length pending ≤ 2 ^ 40 },
}

/// The first line feed, where none stands before an offset.
fn line_feed(bytes: &[u8], from: usize) -> Option<usize>
    requires from { from ≤ length bytes.now }
    requires before { (k : ℕ) → k < from → slice_index bytes.now k ≢ 10 }
    ensures found { IfSome result (λ i. (i < length bytes.now) × (slice_index bytes.now i ≡ 10) × ((k : ℕ) → k < i → slice_index bytes.now k ≢ 10)) }
    ensures none { IfNone result ((k : ℕ) → k < length bytes.now → slice_index bytes.now k ≢ 10) }
{
    match memchr(b'\n', &bytes[from..]) {
        Some(at) => Some(from + at),
        None => None,
    }
}

impl Unread {
    /// Nothing is at hand, and the input is at its start.
    pub fn new(alloc: Global) -> Unread
        ensures pending { result.pending ≡ [] }
        ensures offset { result.offset ≡ 0 }
    {
        Unread {
            pending: Pending::new(alloc),
            offset: 0,
        }
    }

    /// Takes a piece more; false at the end of the input.
    fn fill<H: Host>(&mut self, host: &mut H) -> Result<bool, LineFault>
        requires room { self.old.offset + length self.old.pending < 2 ^ 40 }
        ensures unread { IsTrue (H.told host.old).tells → OnOk result (self.new.pending ++ (H.told host.new).left ≡ self.old.pending ++ (H.told host.old).left) }
        ensures more { IfOk result (λ more. IsTrue more → length self.old.pending < length self.new.pending) }
        ensures end { IsTrue (H.told host.old).tells → IfOk result (λ more. more ≡ false → (H.told host.new).left ≡ []) }
        ensures same { IfOk result (λ more. more ≡ false → self.new.pending ≡ self.old.pending) }
        ensures front { OnOk result (take (length self.old.pending) self.new.pending ≡ self.old.pending) }
        ensures offset { self.new.offset ≡ self.old.offset }
        ensures err { IfErr result (λ e. (e ≡ LineFault.Failed) ⊎ (e ≡ LineFault.Memory)) }
        ensures course { GoesOn (H.told host.old) (H.told host.new) }
        ensures disk { KeepsDisk (H.told host.old) (H.told host.new) }
        ensures said { KeepsSaid (H.told host.old) (H.told host.new) }
        ensures alone { RaisesTakesAlone (H.told host.old) (H.told host.new) }
        ensures cause { IsErrOf result LineFault.Failed → Rose (H.told host.old).take_faults (H.told host.new).take_faults }
    {
        let mut piece = [0u8; PIECE];
        let room = INPUT_LIMIT - self.offset - self.pending.len() as u64;
        let size = room.min(PIECE as u64) as usize;
        let Ok(count) = host.take(&mut piece[..size]) else {
            return Err(LineFault::Failed);
        };
        if self.pending.extend(&piece[..count]).is_err() {
            return Err(LineFault::Memory);
        }
        Ok(count > 0)
    }

    /// How many bytes stand before the next line feed, and how that was found; past `longest` bytes it gives up.
    pub fn piece_end<H: Host>(
        &mut self,
        host: &mut H,
        longest: usize,
    ) -> Result<(usize, Stop), LineFault>
        ensures unread { IsTrue (H.told host.old).tells → OnOk result (self.new.pending ++ (H.told host.new).left ≡ self.old.pending ++ (H.told host.old).left) }
        ensures clear { IfOk result (λ r. (k : ℕ) → k < r.0 → slice_index self.new.pending k ≢ 10) }
        ensures feed { IfOk result (λ r. r.1 ≡ Stop.Feed → (r.0 < length self.new.pending) × (slice_index self.new.pending r.0 ≡ 10)) }
        ensures all { IfOk result (λ r. r.1 ≢ Stop.Feed → r.0 ≡ length self.new.pending) }
        ensures end { IsTrue (H.told host.old).tells → IfOk result (λ r. r.1 ≡ Stop.Close → (H.told host.new).left ≡ []) }
        ensures far { IfOk result (λ r. r.1 ≡ Stop.Far → (longest < r.0) ⊎ (self.new.offset + r.0 ≡ 2 ^ 40)) }
        ensures near { IfOk result (λ r. r.1 ≡ Stop.Close → self.new.offset + r.0 < 2 ^ 40) }
        ensures short { IfOk result (λ r. r.1 ≡ Stop.Close → r.0 ≤ longest) }
        ensures err { IfErr result (λ e. (e ≡ LineFault.Failed) ⊎ (e ≡ LineFault.Memory)) }
        ensures offset { self.new.offset ≡ self.old.offset }
        ensures course { GoesOn (H.told host.old) (H.told host.new) }
        ensures disk { KeepsDisk (H.told host.old) (H.told host.new) }
        ensures said { KeepsSaid (H.told host.old) (H.told host.new) }
        ensures alone { RaisesTakesAlone (H.told host.old) (H.told host.new) }
        ensures cause { IsErrOf result LineFault.Failed → Rose (H.told host.old).take_faults (H.told host.new).take_faults }
    {
        let mut clear = 0;
        'pieces: loop {
            if let Some(at) = line_feed(self.pending.as_slice(), clear) {
                return Ok((at, Stop::Feed));
            }
            clear = self.pending.len();
            if clear > longest || self.offset + clear as u64 == INPUT_LIMIT {
                return Ok((clear, Stop::Far));
            }
            if !self.fill(host)? {
                return Ok((clear, Stop::Close));
            }
        }
    }

    /// Makes the next line the text.
    pub fn read_line<H: Host>(&mut self, text: &mut String, host: &mut H) -> Result<Got, LineFault>
        ensures line { IsTrue (H.told host.old).tells →
            GotLine result (string_bytes text.new) (next_line_of self.old.offset (self.old.pending ++ (H.told host.old).left)) }
        ensures past { IsTrue (H.told host.old).tells → OnOk result (PastLine
            (self.old.pending ++ (H.told host.old).left) (self.new.pending ++ (H.told host.new).left) self.old.offset self.new.offset) }
        ensures end { IsTrue (H.told host.old).tells → IfOk result (λ got. got ≡ Got.End → (H.told host.new).left ≡ []) }
        ensures short { IfOk result (λ got. got ≡ Got.Line → length (string_bytes text.new) ≤ line_limit) }
        ensures advances { IfOk result (λ got. got ≡ Got.Line → self.old.offset < self.new.offset) }
        ensures course { GoesOn (H.told host.old) (H.told host.new) }
        ensures disk { KeepsDisk (H.told host.old) (H.told host.new) }
        ensures said { KeepsSaid (H.told host.old) (H.told host.new) }
        ensures alone { RaisesTakesAlone (H.told host.old) (H.told host.new) }
        ensures cause { IsErrOf result LineFault.Failed → Rose (H.told host.old).take_faults (H.told host.new).take_faults }
    {
        let (len, ended) = self.line_end(host)?;
        self.line_at(text, len, ended)
    }

    /// How many bytes the next line has, and whether a line feed follows them.
    pub fn line_end<H: Host>(&mut self, host: &mut H) -> Result<(usize, bool), LineFault>
        ensures unread { IsTrue (H.told host.old).tells → OnOk result (self.new.pending ++ (H.told host.new).left ≡ self.old.pending ++ (H.told host.old).left) }
        ensures found { IfOk result (λ r. IsTrue r.1 → (r.0 < length self.new.pending)
            × (slice_index self.new.pending r.0 ≡ 10)
            × ((k : ℕ) → k < r.0 → slice_index self.new.pending k ≢ 10)) }
        ensures none { IfOk result (λ r. r.1 ≡ false → (r.0 ≡ length self.new.pending)
            × ((k : ℕ) → k < r.0 → slice_index self.new.pending k ≢ 10)) }
        ensures end { IsTrue (H.told host.old).tells → IfOk result (λ r. r.1 ≡ false → (H.told host.new).left ≡ []) }
        ensures limit { IfOk result (λ r. r.0 ≤ line_limit) }
        ensures within { IfOk result (λ r. self.new.offset + r.0 < 2 ^ 40) }
        ensures fault { IsTrue (H.told host.old).tells → IfErr result (λ e. IsLineFault e (next_line_of self.old.offset (self.old.pending ++ (H.told host.old).left))) }
        ensures offset { self.new.offset ≡ self.old.offset }
        ensures course { GoesOn (H.told host.old) (H.told host.new) }
        ensures disk { KeepsDisk (H.told host.old) (H.told host.new) }
        ensures said { KeepsSaid (H.told host.old) (H.told host.new) }
        ensures alone { RaisesTakesAlone (H.told host.old) (H.told host.new) }
        ensures cause { IsErrOf result LineFault.Failed → Rose (H.told host.old).take_faults (H.told host.new).take_faults }
    {
        let (len, stop) = self.piece_end(host, LINE_LIMIT as usize)?;
        match stop {
            Stop::Feed => self.within_limit(len, true),
            Stop::Far => self.within_limit(len, false),
            Stop::Close => Ok((len, false)),
        }
    }

    fn within_limit(&self, len: usize, ended: bool) -> Result<(usize, bool), LineFault>
        ensures ok { IfOk result (λ r. (r.0 ≡ len) × (r.1 ≡ ended) × (len ≤ line_limit) × (self.now.offset + len < 2 ^ 40)) }
        ensures err { IfErr result (λ e. ((line_limit < len) × (e ≡ LineFault.LineTooLong (self.now.offset + line_limit)))
            ⊎ ((len ≤ line_limit) × (2 ^ 40 ≤ self.now.offset + len) × (e ≡ LineFault.InputTooLong input_limit))) }
    {
        let len_64 = len as u64;
        if len_64 > LINE_LIMIT {
            return Err(LineFault::LineTooLong {
                at: self.offset.saturating_add(LINE_LIMIT),
            });
        }
        if self.offset >= INPUT_LIMIT - len_64 {
            return Err(LineFault::InputTooLong { at: INPUT_LIMIT });
        }
        Ok((len, ended))
    }

    /// Makes the line at hand the text, and goes past it.
    pub fn line_at(&mut self, text: &mut String, len: usize, ended: bool) -> Result<Got, LineFault>
        requires len { len ≤ length self.old.pending }
        requires ended { IsTrue ended → len < length self.old.pending }
        requires whole { ended ≡ false → len ≡ length self.old.pending }
        ensures line { GotLine result (string_bytes text.new) (line_or_end self.old.offset (take len self.old.pending) ended) }
        ensures short { IfOk result (λ got. got ≡ Got.Line → length (string_bytes text.new) ≤ len) }
        ensures pending { OnOk result (self.new.pending ≡ drop (if ended then len + 1 else len) self.old.pending) }
        ensures offset { OnOk result (self.new.offset ≡ self.old.offset + (if ended then len + 1 else len)) }
        ensures advances { IfOk result (λ got. got ≡ Got.Line → self.old.offset < self.new.offset) }
        ensures end { IfOk result (λ got. got ≡ Got.End → ended ≡ false) }
        ensures not_failed { IfErr result (λ e. e ≢ LineFault.Failed) }
    {
        if !ended && len == 0 {
            return Ok(Got::End);
        }
        self.take_text(text, len, ended)?;
        Ok(Got::Line)
    }

    /// Makes the line of the first bytes the text, and goes past it and its line feed.
    #[tactic(auto, using(crate::proofs::ScriptCuts::text_lemmas))]
    fn take_text(&mut self, text: &mut String, len: usize, ended: bool) -> Result<(), LineFault>
        requires len { len ≤ length self.old.pending }
        requires ended { IsTrue ended → len < length self.old.pending }
        ensures text { OnOk result (text_at self.old.offset (line_bytes ended (take len self.old.pending)) ≡ Ok (string_bytes text.new)) }
        ensures short { OnOk result (length (string_bytes text.new) ≤ len) }
        ensures pending { OnOk result (self.new.pending ≡ drop (if ended then len + 1 else len) self.old.pending) }
        ensures offset { OnOk result (self.new.offset ≡ self.old.offset + (if ended then len + 1 else len)) }
        ensures fault { IfErr result (λ e. IsTextFault e (text_at self.old.offset (line_bytes ended (take len self.old.pending)))) }
        ensures not_failed { IfErr result (λ e. e ≢ LineFault.Failed) }
    {
        set_text(
            text,
            self.offset,
            line_bytes(&self.pending.as_slice()[..len], ended),
        )?;
        self.go_past(if ended { len + 1 } else { len });
        Ok(())
    }

    /// Goes past the first bytes.
    pub fn go_past(&mut self, count: usize)
        requires count { count ≤ length self.old.pending }
        ensures pending { self.new.pending ≡ drop count self.old.pending }
        ensures offset { self.new.offset ≡ self.old.offset + count }
    {
        self.pending.go_past(count);
        self.offset += count as u64;
    }
}

/// The bytes of a line: one carriage return right before its line feed is none of them.
pub fn line_bytes(raw: &[u8], ended: bool) -> &[u8]
    ensures line { result.now ≡ line_bytes ended raw.now }
    ensures short { length result.now ≤ length raw.now }
{
    if ended { cut_cr(raw) } else { raw }
}

/// The line without a carriage return at its end.
fn cut_cr(raw: &[u8]) -> &[u8]
    ensures line { result.now ≡ without_cr raw.now }
    ensures short { length result.now ≤ length raw.now }
{
    let len = raw.len();
    if len > 0 && raw[len - 1] == b'\r' {
        return &raw[..len - 1];
    }
    raw
}

#[tactic(auto, using(crate::proofs::ScriptCuts::text_lemmas))]
fn set_text(text: &mut String, offset: u64, bytes: &[u8]) -> Result<(), LineFault>
    requires { offset + length bytes.now < 2 ^ 64 }
    ensures text { OnOk result (text_at offset bytes.now ≡ Ok (string_bytes text.new)) }
    ensures short { OnOk result (length (string_bytes text.new) ≤ length bytes.now) }
    ensures fault { IfErr result (λ e. IsTextFault e (text_at offset bytes.now)) }
    ensures not_failed { IfErr result (λ e. e ≢ LineFault.Failed) }
{
    text.clear();
    match std::str::from_utf8(bytes) {
        Err(error) => Err(LineFault::NotText {
            at: offset + error.valid_up_to() as u64,
        }),
        Ok(line) => match text.push_str(line) {
            Ok(()) => Ok(()),
            Err(_) => Err(LineFault::Memory),
        },
    }
}
