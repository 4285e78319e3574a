//! Copies of texts that are among the words.

ghost use Rattle.std.specs.Prelude.{◌≡◌, IfOk, map, option_map, string_bytes};
ghost use Rattle.std.specs.Option.{option_copied};

use std::alloc::{AllocError, Global};

/// Copies a text, if there is one.
pub(crate) fn copied(alloc: Global, text: Option<&str>) -> Result<Option<String>, AllocError>
    ensures { IfOk result (λ it. option_map string_bytes it ≡ option_copied text.entry) }
{
    match text {
        None => Ok(None),
        Some(text) => Ok(Some(String::from_str(alloc, text)?)),
    }
}

/// Copies texts.
pub(crate) fn copied_all(alloc: Global, texts: &[&str]) -> Result<Vec<String>, AllocError>
    ensures { IfOk result (λ all. map string_bytes all.items ≡ map (λ text. text.now) texts.now) }
{
    let mut all = Vec::with_capacity(alloc, texts.len())?;
    for text in texts {
        all.push(String::from_str(alloc, text)?)?;
    }
    Ok(all)
}
