//! The writing of an attribute value as JSON, by the attribute's type.
ghost use Rattle.std.specs.Prelude.{◌≡◌, IfOk, true};
ghost use Rattle.serde_json.specs.View.{view};
ghost use Rattle.ecore_meta.specs.Typing.{fits};
ghost use Rattle.ecore_meta.specs.declared.meta.Value.TheVariants.{Literal};
ghost use Rattle.emfjson_values.specs.Values.{data_of, literal_word, value_text};

use ecore_meta::{Metamodel, Scalar, Value};
use serde_json::Value as Json;
use std::alloc::{AllocError, Global};
use texts::Text;

/// The text of a value of the type: JSON without spaces, with `serde_json`'s escapes. A literal is its text in quotes.
pub fn write_value(
    alloc: Global,
    value: &Value,
    scalar: &Scalar,
    meta: &Metamodel,
) -> Result<Text, AllocError>
    requires fits { fits meta.now scalar.now value.now ≡ true }
    ensures text { IfOk result (λ t. t ≡ value_text meta.now scalar.now value.now) }
{
    let json = json_of(alloc, value, scalar, meta)?;
    let text = json.to_string(alloc)?;
    Text::new(alloc, text.as_str())
}

/// The text of a literal of the type.
fn literal_word<'a>(meta: &'a Metamodel, scalar: &Scalar, n: u32) -> &'a str
    requires { fits meta.now scalar.now (Literal n) ≡ true }
    ensures { result.now ≡ literal_word meta.now scalar.now n }
{
    match scalar {
        Scalar::Literal(e) => meta.literal_text(*e, n),
        _ => "",
    }
}

fn json_of(
    alloc: Global,
    value: &Value,
    scalar: &Scalar,
    meta: &Metamodel,
) -> Result<Json, AllocError>
    requires { fits meta.now scalar.now value.now ≡ true }
    ensures { IfOk result (λ json. view json ≡ data_of meta.now scalar.now value.now) }
{
    match value {
        Value::Text(text) => Json::try_from_str(alloc, text.as_str()),
        Value::Flag(flag) => Ok(Json::from(*flag)),
        Value::Whole(n) => Ok(Json::from(*n)),
        Value::Literal(n) => Json::try_from_str(alloc, literal_word(meta, scalar, *n)),
    }
}
