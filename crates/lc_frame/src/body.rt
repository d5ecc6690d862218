//! The bytes of a message.
ghost use Rattle.std.specs.Prelude.{◌≡◌, ◌≤◌, [], length, vec_capacity};

use std::marker::Model;

/// The bytes of a message, which contracts see as their list.
#[derive(Debug, Drop)]
pub struct Body {
    bytes: Vec<u8>,
}

impl Model for Body {
    ghost use Rattle.std.specs.Prelude.{List, ℕ};

    ghost Value = { List ℕ };

    ghost view = { λ body. body.bytes.items };
}

impl Body {
    /// The body of these bytes, with no copy.
    pub fn from_vec(bytes: Vec<u8>) -> Body
        ensures { result ≡ bytes.items }
    {
        Body { bytes }
    }

    /// The copy of a message, in memory that was taken for it: none is asked for.
    #[inline]
    pub fn copied(room: Vec<u8>, message: &[u8]) -> Body
        requires empty { room.items ≡ [] }
        requires enough { length message.now ≤ vec_capacity room }
        ensures { result ≡ message.now }
    {
        let mut bytes = room;
        let _ = bytes.extend_from_slice(message);
        Body { bytes }
    }

    /// The bytes, with no copy.
    pub fn into_vec(self) -> Vec<u8>
        ensures { result.items ≡ self }
    {
        self.bytes
    }

    /// The bytes, in order.
    pub fn as_slice(&self) -> &[u8]
        ensures { result.now ≡ self.now }
    {
        self.bytes.as_slice()
    }
}
