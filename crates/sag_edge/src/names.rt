//! Names of files, and their bytes.

ghost use Rattle.std.specs.Prelude.{◌≡◌, ℕ, List, IfOk, MatchOption, [], vec_len, string_bytes};
ghost use Rattle.sag_edge.specs.Contents.{bytes_at};

use std::alloc::{AllocError, Global};
use std::marker::Model;

/// The name of a file: any text, the empty one too. Contracts see its bytes.
#[derive(Drop)]
pub struct FileName {
    text: String,
}

impl Model for FileName {
    ghost Value = { List ℕ };

    ghost view = { λ name. string_bytes name.text };
}

impl FileName {
    /// Copies the text.
    pub fn from_text(alloc: Global, text: &str) -> Result<FileName, AllocError>
        ensures { IfOk result (λ name. name ≡ text.now) }
    {
        let text = String::from_str(alloc, text)?;
        Ok(FileName { text })
    }

    /// The text.
    pub fn as_str(&self) -> &str
        ensures { result.now ≡ self.now }
    {
        self.text.as_str()
    }
}

/// The bytes of a file, as contracts see it.
#[derive(Drop)]
pub struct FileBytes {
    list: Vec<u8>,
}

impl Model for FileBytes {
    ghost Value = { List ℕ };

    ghost view = { λ bytes. bytes.list.items };
}

impl FileBytes {
    /// The file of these bytes.
    pub fn from_vec(list: Vec<u8>) -> FileBytes
        ensures { result ≡ list.items }
    {
        FileBytes { list }
    }

    /// The bytes.
    pub fn as_slice(&self) -> &[u8]
        ensures { result.now ≡ self.now }
    {
        self.list.as_slice()
    }
}

/// The bytes of the first file of that name.
pub(crate) fn find_bytes<'a>(
    files: &'a [(FileName, FileBytes)],
    name: &FileName,
) -> Option<&'a [u8]>
    ensures { MatchOption result (bytes_at files.now name.now ≡ [])
        (λ bytes. bytes.now ≡ bytes_at files.now name.now) }
{
    for file in files {
        if file.0.as_str() == name.as_str() {
            return Some(file.1.as_slice());
        }
    }
    None
}
