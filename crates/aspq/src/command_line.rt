//! The words of the command line.
ghost use Rattle.std.specs.Prelude.{◌≡◌, ◌⊎◌, [], IsUtf8, string_bytes};

use std::alloc::{AllocError, Global};
use std::env::{Env, FillError};

/// How many bytes a word is given room for at first.
const FIRST_ROOM: usize = 256;

/// The words behind the program's name, in their order.
///
/// A word that isn't text (UTF-8) is handed on as an empty one. No command reads an empty word at any place, so the word that
/// isn't text is refused with its own number, if no word before it is.
///
/// # Errors
///
/// Memory ran out.
pub fn words<E: Env>(alloc: Global, env: &E) -> Result<Vec<String>, AllocError> {
    let mut words = Vec::new(alloc);
    for number in 1..usize::MAX {
        match word(alloc, env, number)? {
            Some(word) => words.push(word)?,
            None => break,
        }
    }
    Ok(words)
}

/// The word with that number, from 1, if there is one.
///
/// # Errors
///
/// Memory ran out.
fn word<E: Env>(alloc: Global, env: &E, number: usize) -> Result<Option<String>, AllocError> {
    let mut room = FIRST_ROOM;
    for _ in 0..usize::BITS {
        let mut bytes = Vec::new(alloc);
        bytes.resize(room, 0u8)?;
        match env.arg(number, bytes.as_mut_slice()) {
            Ok(length) => {
                bytes.truncate(length);
                return Ok(Some(text_or_empty(alloc, bytes)));
            }
            Err(FillError::NotPresent) => return Ok(None),
            // Twice the room next time.
            Err(FillError::TooLong) => room = room.saturating_add(room),
        }
    }
    Err(AllocError)
}

/// The text that the bytes are, and an empty one where they aren't text.
fn text_or_empty(alloc: Global, bytes: Vec<u8>) -> String
    ensures kept { (string_bytes result ≡ bytes.items) ⊎ (string_bytes result ≡ []) }
    ensures text { IsUtf8 bytes.items → string_bytes result ≡ bytes.items }
{
    match String::from_utf8(bytes) {
        Ok(text) => text,
        Err(_) => String::new(alloc),
    }
}
