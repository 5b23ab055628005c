ghost use Rattle.std.specs.Prelude.{◌≡◌, map, option_map, option_and_then};
ghost use Rattle.serde_json.specs.View.{view};
ghost use Rattle.plan_json.specs.Json.{seen, is_text, items_in, list_in};

use serde_json::Value;

/// Whether a value is this text.
pub fn is_text(value: &Value, text: &str) -> bool
    ensures { result ≡ is_text text.now (view value.now) }
{
    match value.as_str() {
        None => false,
        Some(found) => found == text,
    }
}

/// The items of an array.
pub fn items_in(value: &Value) -> Option<&Vec<Value>>
    ensures { option_map (λ items. map view items.now.items) result ≡ items_in (view value.now) }
{
    value.as_array()
}

/// The items of a member that is an array of `least` to `most` of them.
pub fn list_in(member: Option<&Value>, least: usize, most: usize) -> Option<&Vec<Value>>
    ensures { option_map (λ items. map view items.now.items) result
        ≡ option_and_then (list_in least most) (seen member.entry) }
{
    let items = items_in(member?)?;
    if least <= items.len() && items.len() <= most {
        Some(items)
    } else {
        None
    }
}
