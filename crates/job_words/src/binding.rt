ghost use Rattle.std.specs.Prelude.{IsTrue, ◌≡◌, ◌++◌, [], ◌∷◌, drop, option_map, IfOk, IsErr, is_some};
ghost use Rattle.job_words.specs.Words.{binding_of, bindings_of};
ghost use Rattle.job_words.specs.Requests.{bound, all_bound};

use crate::named_path::NamedPath;
use flow_outside::failure::Memory;
use flow_outside::words::Words;
use flow_types::name::is_name;
use std::alloc::Global;

/// The binding of a word `NAME=PATH`; the name ends at the first `=`.
fn binding_of(word: &str) -> Option<NamedPath<'_>>
    ensures { option_map bound result ≡ binding_of word.now }
{
    match word.split_once('=') {
        None => None,
        Some((name, path)) => {
            if is_name(name.as_bytes()) && !path.is_empty() {
                Some(NamedPath { name, path })
            } else {
                None
            }
        }
    }
}

/// Whether each word from a place on is a binding.
fn are_bindings(words: &Words, from: usize) -> bool
    ensures { result ≡ is_some (bindings_of (drop from words.now)) }
{
    for i in from..words.len() {
        if binding_of(words.at(i)).is_none() {
            return false;
        }
    }
    true
}

/// The bindings of the words from a place on; `None` exactly where one of them is none. Memory is taken only
/// where all are. No text is copied.
pub fn bindings_of<'a>(
    alloc: Global,
    words: &'a Words,
    from: usize,
) -> Result<Option<Vec<NamedPath<'a>>>, Memory>
    ensures bindings { IfOk result
        (λ bindings. option_map (λ bs. all_bound bs.items) bindings ≡ bindings_of (drop from words.now)) }
    ensures form { IsErr result → IsTrue (is_some (bindings_of (drop from words.now))) }
{
    if !are_bindings(words, from) {
        return Ok(None);
    }
    let mut bindings = Vec::new(alloc);
    for i in from..words.len() {
        let Some(binding) = binding_of(words.at(i)) else {
            return Ok(None);
        };
        if bindings.push(binding).is_err() {
            return Err(Memory);
        }
    }
    Ok(Some(bindings))
}
