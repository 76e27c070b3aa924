//! The reading of an attribute value from JSON, by the attribute's type.
ghost use Rattle.std.specs.Prelude.{◌≡◌, IfOk, Some, None, cond, option_map, true};
ghost use Rattle.serde_json.specs.View.{view};
ghost use Rattle.serde_json.specs.Find.{as_str};
ghost use Rattle.ecore_meta.specs.Typing.{fits, half_of};
ghost use Rattle.ecore_meta.specs.declared.meta.Value.TheVariants.{Text as TextValue, Whole};
ghost use Rattle.emfjson_values.specs.Values.{GivesValue, value_in, value_of, whole_in};

use ecore_meta::{Metamodel, Scalar, Value, ValueFault};
use serde_json::Value as Json;
use std::alloc::{AllocError, Global};
use texts::Text;

/// The value of the type that a text is. A text type takes a JSON string, and EBoolean `true` or `false`. A type of
/// whole numbers takes a number that is written as a whole one and that its bits hold, so neither `1.0` nor `-0`. An
/// enum takes a string that is a literal's text, or else a literal's name. White space may stand around the value.
///
/// # Errors
///
/// `Bad` where the text is no JSON or no value of the type; `Memory`.
#[tactic(auto, using(crate::proofs::Fits::in_type))]
pub fn read_value(
    alloc: Global,
    text: &str,
    scalar: &Scalar,
    meta: &Metamodel,
) -> Result<Value, ValueFault>
    ensures value { GivesValue result (value_of meta.now scalar.now text.now) }
    ensures fits { IfOk result (λ v. fits meta.now scalar.now v ≡ true) }
{
    match Json::from_str(alloc, text) {
        Err(error) => {
            if error.is_memory() {
                Err(ValueFault::Memory)
            } else {
                Err(ValueFault::Bad)
            }
        }
        Ok(json) => match value_in(alloc, &json, scalar, meta)? {
            None => Err(ValueFault::Bad),
            Some(value) => Ok(value),
        },
    }
}

fn chosen(n: i64, fits: bool) -> Option<Value>
    ensures { result ≡ cond fits (Some (Whole n)) None }
{
    if fits { Some(Value::Whole(n)) } else { None }
}

fn whole_in(json: &Json, scalar: &Scalar) -> Option<Value>
    ensures { result ≡ whole_in (half_of scalar.now) (view json.now) }
{
    match json.as_i64() {
        None => None,
        Some(n) => chosen(n, scalar.has_whole(n)),
    }
}

fn text_in(alloc: Global, json: &Json) -> Result<Option<Value>, AllocError>
    ensures { IfOk result (λ v. v ≡ option_map (λ t. TextValue t) (as_str (view json.now))) }
{
    match json.as_str() {
        None => Ok(None),
        Some(text) => Ok(Some(Value::Text(Text::new(alloc, text)?))),
    }
}

/// The value of the type that a JSON value is, if it is one.
pub fn value_in(
    alloc: Global,
    json: &Json,
    scalar: &Scalar,
    meta: &Metamodel,
) -> Result<Option<Value>, AllocError>
    ensures { IfOk result (λ v. v ≡ value_in meta.now scalar.now (view json.now)) }
{
    match scalar {
        Scalar::Text => text_in(alloc, json),
        Scalar::Flag => match json.as_bool() {
            None => Ok(None),
            Some(flag) => Ok(Some(Value::Flag(flag))),
        },
        Scalar::Byte => Ok(whole_in(json, scalar)),
        Scalar::Short => Ok(whole_in(json, scalar)),
        Scalar::Int => Ok(whole_in(json, scalar)),
        Scalar::Long => Ok(whole_in(json, scalar)),
        Scalar::Literal(e) => match json.as_str() {
            None => Ok(None),
            Some(text) => match meta.literal_named(*e, text) {
                None => Ok(None),
                Some(n) => Ok(Some(Value::Literal(n))),
            },
        },
    }
}
