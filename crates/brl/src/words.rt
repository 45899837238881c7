//! The words of the command line.
use std::alloc::{AllocError, Global};
use std::io::ErrorKind;
use std::rt::Env;
use std::{env, str};
use thiserror::Error;

/// The most bytes that a word of the command line has on Linux, and one more.
const ROOM: usize = 131_073;

/// Why a process has no words.
#[derive(Debug, Drop, Error)]
pub enum WordsFault {
    /// This word isn't UTF-8; each of its bytes that isn't is shown as U+FFFD. The program's name
    /// is word 0.
    #[error("error: word {number} of the command line isn't UTF-8: {text}")]
    NotUtf8 { number: usize, text: String },
    /// Memory ran out.
    #[error("Memory")]
    Memory,
}

impl WordsFault {
    /// The exit status.
    pub fn status(&self) -> u8 {
        match self {
            WordsFault::NotUtf8 { .. } => 2,
            WordsFault::Memory => 3,
        }
    }
}

impl From<AllocError> for WordsFault {
    fn from(_error: AllocError) -> WordsFault {
        WordsFault::Memory
    }
}

/// The words with which a process was called, its own name first.
pub fn words_of<R: Env + Alloc<A = Global>>(
    alloc: Global,
    env: &R,
) -> Result<Vec<String>, WordsFault> {
    match env::args(env) {
        Ok(words) => Ok(words.collect(alloc)?),
        Err(error) if error.kind() == ErrorKind::InvalidData => Err(word_fault(alloc, env)?),
        Err(_) => Err(WordsFault::Memory),
    }
}

/// The fault of the first word that isn't UTF-8.
fn word_fault<R: Env>(alloc: Global, env: &R) -> Result<WordsFault, AllocError> {
    let mut room = vec![in alloc; 0u8; ROOM]?;
    for number in 0..usize::MAX {
        let Ok(count) = env.arg(number, room.as_mut_slice()) else {
            break;
        };
        let word = &room[..count];
        if str::from_utf8(word).is_err() {
            let text = String::from_utf8_lossy(alloc, word)?;
            return Ok(WordsFault::NotUtf8 { number, text });
        }
    }
    Ok(WordsFault::Memory)
}
