//! The names of files that options give.

ghost use Rattle.std.specs.Prelude.{◌≡◌, IfOk, option_map};

use sag_edge::FileName;
use std::alloc::{AllocError, Global};

/// The name of a file, where one is given.
pub(crate) fn name_of(alloc: Global, text: Option<&str>) -> Result<Option<FileName>, AllocError>
    ensures { IfOk result (λ name. name ≡ option_map (λ text. text.now) text.entry) }
{
    match text {
        Some(text) => Ok(Some(FileName::from_text(alloc, text)?)),
        None => Ok(None),
    }
}
