// What the JSON form is made of.
ghost use Rattle.std.specs.Prelude.{◌≡◌, IfOk};
ghost use Rattle.serde_json.specs.View.{view};
ghost use Rattle.nv_report.specs.Json.{natural, list_value, hex_value, word_json, payload_value, span_value};

use serde_json::Value;
use std::alloc::{AllocError, Global};

// Bytes as hexadecimal digits.
pub fn hex_value(alloc: Global, bytes: &[u8]) -> Result<Value, AllocError>
    ensures { IfOk result (λ value. view value ≡ hex_value bytes.now) }
{
    Ok(Value::String(hex::encode(alloc, bytes)?))
}

// 32 bits as hexadecimal digits.
pub fn word_json(alloc: Global, word: u32) -> Result<Value, AllocError>
    ensures { IfOk result (λ value. view value ≡ word_json word) }
{
    hex_value(alloc, &word.to_be_bytes())
}

// The bytes of a call and of its reply.
pub fn payload_value(alloc: Global, call: &[u8], reply: &[u8]) -> Result<Value, AllocError>
    ensures { IfOk result (λ value. view value ≡ payload_value call.now reply.now) }
{
    let mut text = hex::encode(alloc, call)?;
    text.push_str(hex::encode(alloc, reply)?.as_str())?;
    Ok(Value::String(text))
}

pub fn numbers(alloc: Global, numbers: &[u32]) -> Result<Value, AllocError>
    ensures { IfOk result (λ value. view value ≡ list_value natural numbers.now) }
{
    let mut items = Vec::new(alloc);
    for number in numbers {
        items.push(Value::from(*number))?;
    }
    Ok(Value::Array(items))
}

// Parts of the log, each from its first event to below its last.
pub fn spans(alloc: Global, spans: &[(u32, u32)]) -> Result<Value, AllocError>
    ensures { IfOk result (λ value. view value ≡ list_value span_value spans.now) }
{
    let mut items = Vec::new(alloc);
    for span in spans {
        items.push(numbers(alloc, &[span.0, span.1])?)?;
    }
    Ok(Value::Array(items))
}
