//! A sentence for people, in a caller's room.

ghost use Rattle.std.specs.Prelude.{◌≡◌, ◌-◌, ◌<◌, ◌≤◌, length, take, drop, replicate};
ghost use Rattle.c_interface.specs.Said.{most_said, no_sentence};

/// The bytes of a sentence's room; the last one stays 0.
pub const ROOM: usize = 252;

/// A sentence in English, as C sees it, with zeros after its bytes.
#[repr(C)]
#[derive(Clone, Copy)]
pub struct Sentence {
    /// The length of the sentence in bytes, at most 251.
    pub length: u32,
    /// The bytes of the sentence, and then zeros.
    pub bytes: [u8; ROOM],
}

impl Sentence {
    /// Creates the empty sentence.
    pub fn none() -> Sentence
        ensures { result ≡ no_sentence }
    {
        Sentence {
            length: 0,
            bytes: [0; ROOM],
        }
    }

    /// Creates the sentence with these words. Condition: at most 251 bytes.
    pub fn of(words: &[u8]) -> Sentence
        requires { length words.now ≤ most_said }
        ensures ends { result.length < ROOM }
        ensures zeros { drop result.length result.bytes ≡ replicate (ROOM - result.length) 0 }
        ensures said { take result.length result.bytes ≡ words.now }
    {
        let mut bytes = [0; ROOM];
        bytes[..words.len()].copy_from_slice(words);
        Sentence {
            length: words.len() as u32,
            bytes,
        }
    }
}
