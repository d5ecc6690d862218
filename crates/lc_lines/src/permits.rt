//! What the permits of a channel hold.
ghost use Rattle.std.specs.Prelude.{◌≡◌, ◌<◌, ◌≤◌, ◌^◌, ◌+◌, true};
ghost use Rattle.lc_lines.specs.Permits.{no_permits, with_permit, without_permit, is_permit, permitted};

/// What the permits of a channel hold: a slot each, and guarantees.
#[derive(Clone, Copy)]
pub struct Aside {
    /// How many permits are out.
    pub permits: usize,
    /// The guarantees that they set aside.
    pub bytes: u64,
}

impl Aside {
    /// What a channel without permits holds.
    pub fn none() -> Aside
        ensures { result ≡ no_permits }
    {
        Aside {
            permits: 0,
            bytes: 0,
        }
    }

    /// One permit more, of so many bytes.
    #[inline]
    pub fn with_permit(self, len: usize) -> Aside
        requires permits { self.permits < 2 ^ 32 }
        requires bytes { self.bytes + len < 2 ^ 64 }
        ensures { result ≡ with_permit self len }
    {
        Aside {
            permits: self.permits + 1,
            bytes: self.bytes + len as u64,
        }
    }

    /// One permit less, of so many bytes.
    #[inline]
    pub fn without_permit(self, len: usize) -> Aside
        requires { is_permit self len ≡ true }
        ensures { result ≡ without_permit self len }
    {
        Aside {
            permits: self.permits - 1,
            bytes: self.bytes - len as u64,
        }
    }

    /// Whether a permit of so many bytes may be among them.
    #[inline]
    pub fn is_permit(self, len: usize) -> bool
        ensures { result ≡ is_permit self len }
    {
        self.permits > 0 && len as u64 <= self.bytes
    }

    /// How many bytes a message has at most that is sent by a permit of so many bytes.
    #[inline]
    pub fn permitted(self, len: usize) -> usize
        ensures { result ≡ permitted self len }
    {
        if self.is_permit(len) { len } else { 0 }
    }
}
