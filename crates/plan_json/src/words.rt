ghost use Rattle.std.specs.Prelude.{◌≡◌};
ghost use Rattle.plan_json.specs.Json.{seen, meaning};
ghost use Rattle.flow_model.specs.Rules.{is_delimiter};
ghost use Rattle.plan_json.specs.Forms.{delimiter_of, delimiter_in, combine_in, kinds, kind_in, merge_rules, merge_in};

use crate::reading::{Flaw, Reading};
use flow_model::op::{JoinKind, MergeRule};
use serde_json::Value;

/// A member that is a delimiter; a comma where it is absent.
pub fn delimiter_in(member: Option<&Value>) -> Reading<u8>
    ensures { result ≡ delimiter_in (seen member.entry) }
{
    match member {
        None => Ok(b','),
        Some(value) => match value.as_str() {
            None => Err(Flaw::Node),
            Some(text) => delimiter_of(text.as_bytes()).ok_or(Flaw::Node),
        },
    }
}

fn delimiter_of(text: &[u8]) -> Option<u8>
    ensures { result ≡ delimiter_of text.now }
{
    match text {
        [byte] if is_delimiter(*byte) => Some(*byte),
        _ => None,
    }
}

fn is_delimiter(byte: u8) -> bool
    ensures { result ≡ is_delimiter byte }
{
    byte == b',' || byte == b';' || byte == b'|' || byte == b'\t' || byte == b' '
}

/// A member that is true or false; true where it is absent.
pub fn combine_in(member: Option<&Value>) -> Reading<bool>
    ensures { result ≡ combine_in (seen member.entry) }
{
    match member {
        None => Ok(true),
        Some(value) => value.as_bool().ok_or(Flaw::Node),
    }
}

/// A member that is the kind of a join; inner where it is absent.
pub fn kind_in(member: Option<&Value>) -> Reading<JoinKind>
    ensures { result ≡ kind_in (seen member.entry) }
{
    match member {
        None => Ok(JoinKind::Inner),
        Some(value) => match value.as_str() {
            None => Err(Flaw::Node),
            Some(text) => kind_of(text).ok_or(Flaw::Node),
        },
    }
}

fn kind_of(text: &str) -> Option<JoinKind>
    ensures { result ≡ meaning kinds text.now }
{
    match text {
        "inner" => Some(JoinKind::Inner),
        "left" => Some(JoinKind::Left),
        "right" => Some(JoinKind::Right),
        "full" => Some(JoinKind::Full),
        _ => None,
    }
}

/// A member that is the rule of a merge.
pub fn merge_in(member: Option<&Value>) -> Reading<MergeRule>
    ensures { result ≡ merge_in (seen member.entry) }
{
    match member.and_then(Value::as_str) {
        None => Err(Flaw::Node),
        Some(text) => merge_of(text).ok_or(Flaw::Node),
    }
}

fn merge_of(text: &str) -> Option<MergeRule>
    ensures { result ≡ meaning merge_rules text.now }
{
    match text {
        "replace" => Some(MergeRule::Replace),
        "greatest" => Some(MergeRule::Greatest),
        _ => None,
    }
}
