//! Default texts read as values of a type: flags, whole numbers of four widths, literals and texts; and the default of
//! a type.
ghost use Rattle.std.specs.Prelude.{◌≡◌, IfOk, IfSome, FitsSigned, Some, None, cond, nat_eq, slice_index};
ghost use mir.Syntax.{w64};
ghost use Rattle.ecore_meta.specs.Typing.{half_of, in_width};
ghost use Rattle.ecore_meta.specs.declared.meta.Scalar.TheVariants.{Byte, Short, Int, Long};
ghost use Rattle.ecore_meta.specs.declared.meta.Value.TheVariants.{Whole};
ghost use Rattle.ecore_meta.specs.Values.{default_of, flag_of, named_of, value_of, whole_in, whole_of, wide};

use crate::enums::Enums;
use crate::meta::{Scalar, Value};
use std::alloc::{AllocError, Global};
use texts::Text;

fn begins_with_plus(text: &[u8]) -> bool
    ensures { result ≡ nat_eq (slice_index text.now 0) 43 }
{
    match text.first() {
        None => false,
        Some(byte) => *byte == b'+',
    }
}

/// The whole number of a text: digits, or a minus and digits, within 64 bits.
fn whole_of(text: &str) -> Option<i64>
    ensures whole { result ≡ wide (whole_of text.now) }
    ensures fits { IfSome result (λ n. FitsSigned w64 n) }
{
    if begins_with_plus(text.as_bytes()) {
        return None;
    }
    match text.parse::<i64>() {
        Ok(n) => Some(n),
        Err(_) => None,
    }
}

fn fits_byte(n: i64) -> bool
    ensures { result ≡ in_width (half_of Byte) n }
{
    -128 <= n && n < 128
}

fn fits_short(n: i64) -> bool
    ensures { result ≡ in_width (half_of Short) n }
{
    -32768 <= n && n < 32768
}

fn fits_int(n: i64) -> bool
    ensures { result ≡ in_width (half_of Int) n }
{
    -2147483648 <= n && n < 2147483648
}

fn fits_long(n: i64) -> bool
    ensures { result ≡ in_width (half_of Long) n }
{
    // For the range of n, which the contract needs.
    let _n = n;
    true
}

impl Scalar {
    /// Whether the type has the whole number; a type of other values has none.
    pub fn has_whole(&self, n: i64) -> bool
        ensures { result ≡ in_width (half_of self.now) n }
    {
        match self {
            Scalar::Byte => fits_byte(n),
            Scalar::Short => fits_short(n),
            Scalar::Int => fits_int(n),
            Scalar::Long => fits_long(n),
            Scalar::Text => false,
            Scalar::Flag => false,
            Scalar::Literal(_) => false,
        }
    }
}

fn flag_of(text: &str) -> Option<Value>
    ensures { result ≡ flag_of text.now }
{
    if text == "true" {
        Some(Value::Flag(true))
    } else if text == "false" {
        Some(Value::Flag(false))
    } else {
        None
    }
}

fn chosen(n: i64, fits: bool) -> Option<Value>
    ensures { result ≡ cond fits (Some (Whole n)) None }
{
    if fits { Some(Value::Whole(n)) } else { None }
}

/// The whole number of the type that a text stands for.
fn whole_in(scalar: &Scalar, text: &str) -> Option<Value>
    ensures { result ≡ whole_in (half_of scalar.now) text.now }
{
    match whole_of(text) {
        Some(n) => chosen(n, scalar.has_whole(n)),
        None => None,
    }
}

fn named_of(enums: &Enums, number: u32, text: &str) -> Option<Value>
    ensures { result ≡ named_of enums.now number text.now }
{
    match enums.literal_named(number, text) {
        Some(n) => Some(Value::Literal(n)),
        None => None,
    }
}

/// The value of the type that a text stands for.
pub fn value_of(
    alloc: Global,
    enums: &Enums,
    scalar: &Scalar,
    text: &str,
) -> Result<Option<Value>, AllocError>
    ensures { IfOk result (λ v. v ≡ value_of enums.now scalar.now text.now) }
{
    match scalar {
        Scalar::Text => Ok(Some(Value::Text(Text::new(alloc, text)?))),
        Scalar::Flag => Ok(flag_of(text)),
        Scalar::Byte => Ok(whole_in(scalar, text)),
        Scalar::Short => Ok(whole_in(scalar, text)),
        Scalar::Int => Ok(whole_in(scalar, text)),
        Scalar::Long => Ok(whole_in(scalar, text)),
        Scalar::Literal(number) => Ok(named_of(enums, *number, text)),
    }
}

/// The default of a type; texts have none.
pub fn default_of(scalar: &Scalar) -> Option<Value>
    ensures { result ≡ default_of scalar.now }
{
    match scalar {
        Scalar::Text => None,
        Scalar::Flag => Some(Value::Flag(false)),
        Scalar::Byte => Some(Value::Whole(0)),
        Scalar::Short => Some(Value::Whole(0)),
        Scalar::Int => Some(Value::Whole(0)),
        Scalar::Long => Some(Value::Whole(0)),
        Scalar::Literal(_) => Some(Value::Literal(0)),
    }
}
