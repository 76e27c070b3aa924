//! The words of a line, one after another.
ghost use Rattle.std.specs.Prelude.{◌≡◌, ◌-◌, ◌<◌, ◌^◌, length, OnOk, Some};
ghost use Rattle.std.specs.List.{list_all};
ghost use Rattle.script_lang.specs.Words.{Gives, GivesText, GivesEnd, GivesOptional, GivesRest, GivesOptionalRest, name_at, optional_at, optional_number_at, rest_at, optional_rest_at, index_or_end_at, moment_at, word_at, number_at, number_below, number_of, is_numeral, end_at};
ghost use Rattle.std.specs.Char.{is_ascii_digit};

use crate::ParseFault;
use model_state::is_name;
use std::marker::Model;

/// The rest of a line, and the column where its next word begins, from 1.
#[derive(Drop)]
pub(crate) struct Words<'a> {
    rest: Option<&'a str>,
    column: usize,
}

impl<'a> Model for Words<'a> {
    ghost use Rattle.std.specs.Prelude.{◌+◌, ◌≤◌, ◌<◌, ◌^◌, length};
    ghost use Rattle.script_lang.specs.Left.{Left, left_of, IsWithin};

    ghost Value = { Left };

    ghost view = { λ w. record { rest = left_of w.rest; column = w.column } };

    ghost invariant = { λ w. (1 ≤ w.column) × IsWithin w.rest w.column };
}

impl<'a> Words<'a> {
    /// All words of a line.
    pub(crate) fn new(line: &'a str) -> Words<'a>
        requires { length line.now < 2 ^ 32 - 1 }
        ensures rest { result.rest ≡ Some line.now }
        ensures column { result.column ≡ 1 }
    {
        Words {
            rest: Some(line),
            column: 1,
        }
    }

    /// The column where the next word begins, or would.
    pub(crate) fn column(&self) -> usize
        ensures { result ≡ self.now.column }
    {
        self.column
    }

    /// The next word.
    #[tactic(auto, unfolding(crate::specs::Words::word_at, crate::specs::Words::rest_at))]
    pub(crate) fn word(&mut self) -> Result<&'a str, ParseFault>
        ensures word { GivesText self.new result (word_at self.old) }
        ensures column { OnOk result (self.old.column < 2 ^ 32) }
    {
        let left = self.rest()?;
        match left.split_once(' ') {
            Some((word, after)) => {
                if word.is_empty() {
                    return Err(bad_line(self.column));
                }
                self.rest = Some(after);
                self.column = self.column + word.len() + 1;
                Ok(word)
            }
            None => {
                self.rest = None;
                self.column = self.column + left.len() + 1;
                Ok(left)
            }
        }
    }

    /// The next word, a number of at least this.
    #[tactic(auto, unfolding(crate::specs::Words::number_at))]
    pub(crate) fn number(&mut self, least: u32) -> Result<u32, ParseFault>
        ensures { Gives self.new result (number_at least self.old) }
    {
        let column = self.column;
        let word = self.word()?;
        match number_of(word) {
            Some(n) if n >= least => Ok(n),
            _ => Err(bad_line(column)),
        }
    }

    /// The next word, a workspace's number: they are counted from 1.
    pub(crate) fn workspace(&mut self) -> Result<u32, ParseFault>
        ensures { Gives self.new result (number_at 1 self.old) }
    {
        self.number(1)
    }

    /// The next word, a name.
    #[tactic(auto, unfolding(crate::specs::Words::name_at))]
    pub(crate) fn name(&mut self) -> Result<&'a str, ParseFault>
        ensures { GivesText self.new result (name_at self.old) }
    {
        let column = self.column;
        let word = self.word()?;
        if is_name(word) {
            Ok(word)
        } else {
            Err(bad_line(column))
        }
    }

    /// The next word, where there is one.
    #[tactic(auto, unfolding(crate::specs::Words::optional_at))]
    pub(crate) fn optional_word(&mut self) -> Result<Option<&'a str>, ParseFault>
        ensures { GivesOptional self.new result (optional_at self.old) }
    {
        if self.rest.is_none() {
            return Ok(None);
        }
        let word = self.word()?;
        Ok(Some(word))
    }

    /// The next word, an index, where there is one.
    #[tactic(auto, unfolding(crate::specs::Words::optional_number_at))]
    pub(crate) fn optional_number(&mut self) -> Result<Option<u32>, ParseFault>
        ensures { Gives self.new result (optional_number_at self.old) }
    {
        if self.rest.is_none() {
            return Ok(None);
        }
        let number = self.number(0)?;
        Ok(Some(number))
    }

    /// All that is left of the line, with its spaces; it is not empty.
    #[tactic(auto, unfolding(crate::specs::Words::rest_at))]
    pub(crate) fn rest(&self) -> Result<&'a str, ParseFault>
        ensures { GivesRest result (rest_at self.now) }
    {
        let Some(rest) = self.rest else {
            return Err(bad_line(self.column - 1));
        };
        if rest.is_empty() {
            return Err(bad_line(self.column));
        }
        Ok(rest)
    }

    /// All that is left of the line, where something is.
    #[tactic(auto, unfolding(crate::specs::Words::optional_rest_at))]
    pub(crate) fn optional_rest(&self) -> Result<Option<&'a str>, ParseFault>
        ensures { GivesOptionalRest result (optional_rest_at self.now) }
    {
        if self.rest.is_none() {
            return Ok(None);
        }
        let rest = self.rest()?;
        Ok(Some(rest))
    }

    /// The next word: an index, or None for `end`.
    #[tactic(auto, unfolding(crate::specs::Words::index_or_end_at))]
    pub(crate) fn index_or_end(&mut self) -> Result<Option<u32>, ParseFault>
        ensures { Gives self.new result (index_or_end_at self.old) }
    {
        let column = self.column;
        let word = self.word()?;
        match number_of(word) {
            Some(index) => Ok(Some(index)),
            None if word == "end" => Ok(None),
            None => Err(bad_line(column)),
        }
    }

    /// The next word, a moment: a number of 64 bits.
    #[tactic(auto, unfolding(crate::specs::Words::moment_at))]
    pub(crate) fn moment(&mut self) -> Result<u64, ParseFault>
        ensures { Gives self.new result (moment_at self.old) }
    {
        let column = self.column;
        let word = self.word()?;
        match moment_of(word) {
            Some(moment) => Ok(moment),
            None => Err(bad_line(column)),
        }
    }

    /// That no word is left.
    pub(crate) fn end(&self) -> Result<(), ParseFault>
        ensures { GivesEnd result (end_at self.now) }
    {
        match self.rest {
            None => Ok(()),
            Some(_) => Err(bad_line(self.column)),
        }
    }
}

/// The fault of a line whose word at the column, from 1, doesn't fit.
pub(crate) fn bad_line(column: usize) -> ParseFault
    requires { column < 2 ^ 32 }
    ensures { result ≡ ParseFault.BadLine column }
{
    ParseFault::BadLine {
        column: column as u32,
    }
}

/// The number that a word is, in decimal and without needless zeros.
#[tactic(auto, unfolding(crate::specs::Words::number_below))]
pub(crate) fn number_of(word: &str) -> Option<u32>
    ensures { result ≡ number_of word.now }
{
    if !is_numeral(word.as_bytes()) {
        return None;
    }
    match word.parse::<u32>() {
        Ok(number) => Some(number),
        Err(_) => None,
    }
}

/// The moment that a word is: a number as above, of 64 bits.
#[tactic(auto, unfolding(crate::specs::Words::number_below))]
fn moment_of(word: &str) -> Option<u64>
    ensures { result ≡ number_below (2 ^ 64) word.now }
{
    if !is_numeral(word.as_bytes()) {
        return None;
    }
    match word.parse::<u64>() {
        Ok(moment) => Some(moment),
        Err(_) => None,
    }
}

fn is_numeral(word: &[u8]) -> bool
    ensures { result ≡ is_numeral word.now }
{
    !word.is_empty() && (word.len() == 1 || word[0] != b'0') && are_digits(word)
}

fn are_digits(bytes: &[u8]) -> bool
    ensures { result ≡ list_all is_ascii_digit bytes.now }
{
    bytes.iter().all(|byte| byte.is_ascii_digit())
}
