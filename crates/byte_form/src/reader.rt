//! Fields, read from the first byte on.
ghost use Rattle.std.specs.Prelude.{◌≡◌, ◌≢◌, ◌≤◌, length, take, IfOk, IfErr, OnErr, MatchResult, Ok, Err, string_bytes};
ghost use Rattle.std.specs.Int.{w32, w64, from_be_bytes};
ghost use Rattle.byte_form.specs.Fields.{Reads, byte_at, number_at, text_at, ends_at, past};

use std::alloc::Global;
use std::marker::Model;
use thiserror::Error;

/// Why a field was not read. The offset is the number of bytes before the field.
#[derive(Clone, Copy, Debug, PartialEq, Eq, Error)]
pub enum ReadFault {
    /// The field passes the end.
    #[error("the field at {at} passes the end")]
    Short { at: u64 },
    /// The field's bytes are no UTF-8.
    #[error("the text at {at} is not UTF-8")]
    BadText { at: u64 },
    /// Bytes are left where there should be none.
    #[error("bytes are left at {at}")]
    Spare { at: u64 },
    /// The allocator had no memory for a text.
    #[error("out of memory")]
    Memory,
}

/// Bytes that are read field by field. After a fault it stands where it stood.
#[derive(Drop)]
pub struct Reader<'a> {
    bytes: &'a [u8],
    at: usize,
}

impl<'a> Model for Reader<'a> {
    ghost use Rattle.std.specs.Prelude.{drop, length, ◌≤◌};
    ghost use Rattle.byte_form.specs.Rest.{Rest};

    ghost Value = { Rest };

    ghost view = { λ r. record { bytes = drop r.at r.bytes.now; offset = r.at } };

    ghost invariant = { λ r. r.at ≤ length r.bytes.now };
}

impl<'a> Reader<'a> {
    /// A reader at the first of the bytes.
    pub fn new(bytes: &'a [u8]) -> Reader<'a>
        ensures bytes { result.bytes ≡ bytes.now }
        ensures offset { result.offset ≡ 0 }
    {
        Reader { bytes, at: 0 }
    }

    /// The number of bytes read.
    pub fn offset(&self) -> u64
        ensures offset { result ≡ self.now.offset }
    {
        self.at as u64
    }

    /// One byte. It takes no memory.
    pub fn take_u8(&mut self) -> Result<u8, ReadFault>
        ensures read { Reads (λ n. n) self.old self.new result (byte_at self.old) }
        ensures err { OnErr result (self.new ≡ self.old) }
        ensures never { IfErr result (λ e. e ≢ ReadFault.Memory) }
    {
        match byte_field(&self.bytes[self.at..], self.at as u64) {
            Err(fault) => Err(fault),
            Ok((n, used)) => {
                self.at += used;
                Ok(n)
            }
        }
    }

    /// A number of four bytes. It takes no memory.
    #[tactic(auto, unfolding(crate::specs::Fields::number_at))]
    pub fn take_u32(&mut self) -> Result<u32, ReadFault>
        ensures read { Reads (λ n. n) self.old self.new result (number_at w32 self.old) }
        ensures err { OnErr result (self.new ≡ self.old) }
        ensures never { IfErr result (λ e. e ≢ ReadFault.Memory) }
    {
        let rest = &self.bytes[self.at..];
        if rest.len() < 4 {
            return Err(ReadFault::Short { at: self.at as u64 });
        }
        let n = u32::from_be_bytes([rest[0], rest[1], rest[2], rest[3]]);
        self.at += 4;
        Ok(n)
    }

    /// A number of eight bytes. It takes no memory.
    pub fn take_u64(&mut self) -> Result<u64, ReadFault>
        ensures read { Reads (λ n. n) self.old self.new result (number_at w64 self.old) }
        ensures err { OnErr result (self.new ≡ self.old) }
        ensures never { IfErr result (λ e. e ≢ ReadFault.Memory) }
    {
        match long_field(&self.bytes[self.at..], self.at as u64) {
            Err(fault) => Err(fault),
            Ok((n, used)) => {
                self.at += used;
                Ok(n)
            }
        }
    }

    /// A text: the count of its bytes, and the bytes.
    pub fn take_text(&mut self, alloc: Global) -> Result<String, ReadFault>
        ensures read { Reads (λ t. string_bytes t) self.old self.new result (text_at self.old) }
        ensures err { OnErr result (self.new ≡ self.old) }
    {
        match text_field(&self.bytes[self.at..], self.at as u64) {
            Err(fault) => Err(fault),
            Ok((text, used)) => match String::from_str(alloc, text) {
                Err(_) => Err(ReadFault::Memory),
                Ok(text) => {
                    self.at += used;
                    Ok(text)
                }
            },
        }
    }

    /// That no byte is left.
    pub fn finish(self) -> Result<(), ReadFault>
        ensures ends { result ≡ ends_at self.entry }
    {
        if self.at < self.bytes.len() {
            return Err(ReadFault::Spare { at: self.at as u64 });
        }
        Ok(())
    }
}

/// The number that the first eight bytes are, and how many bytes the field takes.
#[tactic(auto, unfolding(crate::specs::Fields::number_at))]
fn long_field(rest: &[u8], at: u64) -> Result<(u64, usize), ReadFault>
    ensures field { MatchResult result
        (λ x. number_at w64 (record { bytes = rest.now; offset = at }) ≡ Ok (x.0, past (record { bytes = rest.now; offset = at }) x.1))
        (λ e. number_at w64 (record { bytes = rest.now; offset = at }) ≡ Err e) }
    ensures within { IfOk result (λ x. x.1 ≤ length rest.now) }
    ensures never { IfErr result (λ e. e ≢ ReadFault.Memory) }
{
    if rest.len() < 8 {
        return Err(ReadFault::Short { at });
    }
    Ok((number_of_eight(rest), 8))
}

/// The number that the first eight bytes are.
fn number_of_eight(rest: &[u8]) -> u64
    requires { 8 ≤ length rest.now }
    ensures { result ≡ from_be_bytes w64 (take 8 rest.now) }
{
    u64::from_be_bytes([
        rest[0], rest[1], rest[2], rest[3], rest[4], rest[5], rest[6], rest[7],
    ])
}

/// The text that the first field is, and how many bytes the field takes.
#[tactic(auto, using(crate::proofs::Utf8::utf8_tests), unfolding(crate::specs::Fields::text_at, crate::specs::Fields::number_at))]
fn text_field(rest: &[u8], at: u64) -> Result<(&str, usize), ReadFault>
    ensures field { MatchResult result
        (λ x. text_at (record { bytes = rest.now; offset = at }) ≡ Ok (x.0.now, past (record { bytes = rest.now; offset = at }) x.1))
        (λ e. text_at (record { bytes = rest.now; offset = at }) ≡ Err e) }
    ensures within { IfOk result (λ x. x.1 ≤ length rest.now) }
    ensures never { IfErr result (λ e. e ≢ ReadFault.Memory) }
{
    if rest.len() < 4 {
        return Err(ReadFault::Short { at });
    }
    let (front, rest) = rest.split_at(4);
    let n = u32::from_be_bytes([front[0], front[1], front[2], front[3]]) as usize;
    if rest.len() < n {
        return Err(ReadFault::Short { at });
    }
    let (text, _) = rest.split_at(n);
    match std::str::from_utf8(text) {
        Ok(text) => Ok((text, 4 + n)),
        Err(_) => Err(ReadFault::BadText { at }),
    }
}

/// The first byte.
#[tactic(auto, unfolding(crate::specs::Fields::byte_at))]
fn byte_field(rest: &[u8], at: u64) -> Result<(u8, usize), ReadFault>
    ensures field { MatchResult result
        (λ x. byte_at (record { bytes = rest.now; offset = at }) ≡ Ok (x.0, past (record { bytes = rest.now; offset = at }) x.1))
        (λ e. byte_at (record { bytes = rest.now; offset = at }) ≡ Err e) }
    ensures within { IfOk result (λ x. x.1 ≤ length rest.now) }
    ensures never { IfErr result (λ e. e ≢ ReadFault.Memory) }
{
    match rest {
        [] => Err(ReadFault::Short { at }),
        [n, ..] => Ok((*n, 1)),
    }
}
