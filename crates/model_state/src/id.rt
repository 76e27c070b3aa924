//! The ids of elements: their syntax, their reading from a text, their order.
ghost use Rattle.std.specs.Prelude.{◌≡◌, IfOk, IfErr, OnOk, true, nat_eq, refl, Some};
ghost use Rattle.std.specs.Cmp.Lexicographic.{pointwise, slice_cmp, nat_list_eq_equiv, nat_list_cmp_total, texts_ties, texts_po};
ghost use Rattle.std.specs.Cmp.{partial_equiv_from_equiv};
ghost use Rattle.std.specs.Ordering.{nat_cmp};
ghost use Rattle.std.specs.List.{list_all};
ghost use Rattle.model_state.specs.Ident.{is_id, is_id_byte, begins_as_id};
ghost use Rattle.model_state.specs.Faults.{IsIdFault};

use std::alloc::{AllocError, Global};
use std::cmp::Ordering;
use std::marker::Model;
use texts::Text;
use thiserror::Error;

/// The most bytes of an id.
const MOST_ID_BYTES: usize = 128;

/// The id of an element: 1 to 128 printable ASCII bytes without `"` and `\`, the first neither `/` nor `#`. So an id
/// can stand in a path of emfjson. Contracts see its bytes, and ids stand in their order.
#[derive(Debug, Drop)]
pub struct Id {
    text: Text,
}

impl Model for Id {
    ghost use Rattle.std.specs.Prelude.{List, ℕ, ◌≡◌, true};
    ghost use Rattle.model_state.specs.Ident.{is_id};

    ghost Value = { List ℕ };

    ghost view = { λ a. a.text };

    ghost invariant = { λ a. is_id a.text ≡ true };
}

/// Why a text is read as no id.
#[derive(Clone, Copy, Debug, PartialEq, Eq, Drop, Error)]
pub enum IdFault {
    /// The text is not of the form of an id.
    #[error("no id")]
    Bad,
    #[error("out of memory")]
    Memory,
}

fn is_byte_of_id(b: u8) -> bool
    ensures { result ≡ is_id_byte b }
{
    b >= b'!' && b <= b'~' && b != b'"' && b != b'\\'
}

fn are_bytes_of_id(bytes: &[u8]) -> bool
    ensures { result ≡ list_all is_id_byte bytes.now }
{
    bytes.iter().all(|b| is_byte_of_id(*b))
}

fn begins_well(bytes: &[u8]) -> bool
    ensures { result ≡ begins_as_id bytes.now }
{
    match bytes.first() {
        None => true,
        Some(b) => *b != b'/' && *b != b'#',
    }
}

fn has_form(bytes: &[u8]) -> bool
    ensures { result ≡ is_id bytes.now }
{
    1 <= bytes.len() && bytes.len() <= MOST_ID_BYTES && are_bytes_of_id(bytes) && begins_well(bytes)
}

impl Id {
    /// Reads an id.
    pub fn read(alloc: Global, text: &str) -> Result<Id, IdFault>
        ensures read { IfOk result (λ id. id ≡ text.now) }
        ensures form { OnOk result (is_id text.now ≡ true) }
        ensures refused { IfErr result (λ e. IsIdFault text.now e) }
    {
        if !has_form(text.as_bytes()) {
            return Err(IdFault::Bad);
        }
        match Text::new(alloc, text) {
            Ok(text) => Ok(Id { text }),
            Err(_) => Err(IdFault::Memory),
        }
    }

    /// The text of the id: 1 to 128 bytes of printable ASCII.
    pub fn as_str(&self) -> &str
        ensures bytes { result.now ≡ self.now }
        ensures form { is_id self.now ≡ true }
    {
        self.text.as_str()
    }

    /// The same id in memory of its own.
    pub fn copy(&self, alloc: Global) -> Result<Id, AllocError>
        ensures { IfOk result (λ t. t ≡ self.now) }
    {
        Ok(Id {
            text: self.text.copy(alloc)?,
        })
    }
}

impl PartialEq for Id {
    ghost eq = { pointwise nat_eq };

    ghost laws = { partial_equiv_from_equiv nat_list_eq_equiv };

    fn eq(&self, other: &Id) -> bool {
        self.as_str() == other.as_str()
    }
}

impl Eq for Id {
    ghost laws = { nat_list_eq_equiv };
}

impl PartialOrd for Id {
    ghost partial_cmp = { λ x y. Some (slice_cmp nat_cmp x y) };

    ghost laws = { texts_po };

    fn partial_cmp(&self, other: &Id) -> Option<Ordering> {
        Some(self.cmp(other))
    }
}

impl Ord for Id {
    ghost cmp = { slice_cmp nat_cmp };

    ghost total = { nat_list_cmp_total };

    ghost matches_partial_cmp = { λ x y. refl };

    ghost matches_eq = { texts_ties };

    fn cmp(&self, other: &Id) -> Ordering {
        self.as_str().cmp(other.as_str())
    }
}
