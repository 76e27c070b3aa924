//! A line in the making.
ghost use Rattle.std.specs.Prelude.{◌≡◌, ◌++◌, ◌∷◌, [], IfOk, OnOk, true};
ghost use Rattle.std.specs.Fmt.{decimal};
ghost use Rattle.ecore_meta.specs.Typing.{fits};
ghost use Rattle.emfjson_values.specs.Values.{value_text};

use ecore_meta::{Metamodel, Scalar, Value};
use emfjson_values::write_value;
use std::alloc::{AllocError, Global};
use std::marker::Model;
use texts::Text;

/// A line in the making, which contracts see as its bytes so far.
#[derive(Drop)]
pub(crate) struct Line {
    alloc: Global,
    text: String,
}

impl Model for Line {
    ghost use Rattle.std.specs.Prelude.{List, ℕ};
    ghost use Rattle.std.specs.String.{string_bytes};

    ghost Value = { List ℕ };

    ghost view = { λ a. string_bytes a.text };
}

impl Line {
    /// A line without a word.
    pub(crate) fn new(alloc: Global) -> Line
        ensures { result ≡ [] }
    {
        Line {
            alloc,
            text: String::new(alloc),
        }
    }

    /// More of the word that stands last.
    pub(crate) fn push(&mut self, text: &str) -> Result<(), AllocError>
        ensures { OnOk result (self.new ≡ self.old ++ text.now) }
    {
        self.text.push_str(text)?;
        Ok(())
    }

    /// A further word, after a space.
    pub(crate) fn push_word(&mut self, word: &str) -> Result<(), AllocError>
        ensures { OnOk result (self.new ≡ self.old ++ 32 ∷ word.now) }
    {
        self.push(" ")?;
        self.push(word)
    }

    /// A number in decimal, as more of the word that stands last.
    pub(crate) fn push_digits(&mut self, number: u64) -> Result<(), AllocError>
        ensures { OnOk result (self.new ≡ self.old ++ decimal number) }
    {
        let digits = format!(in self.alloc; "{number}")?;
        self.push(digits.as_str())
    }

    /// A number in decimal as a further word.
    pub(crate) fn push_number(&mut self, number: u64) -> Result<(), AllocError>
        ensures { OnOk result (self.new ≡ self.old ++ 32 ∷ decimal number) }
    {
        let digits = format!(in self.alloc; "{number}")?;
        self.push_word(digits.as_str())
    }

    /// A value of a type as a further word.
    pub(crate) fn push_value(
        &mut self,
        value: &Value,
        scalar: &Scalar,
        meta: &Metamodel,
    ) -> Result<(), AllocError>
        requires { fits meta.now scalar.now value.now ≡ true }
        ensures { OnOk result (self.new ≡ self.old ++ 32 ∷ value_text meta.now scalar.now value.now) }
    {
        let text = write_value(self.alloc, value, scalar, meta)?;
        self.push_word(text.as_str())
    }

    /// The line, as a text of its own.
    pub(crate) fn into_text(self) -> Result<Text, AllocError>
        ensures { IfOk result (λ t. t ≡ self) }
    {
        Text::new(self.alloc, self.text.as_str())
    }
}
