//! What tells one result from another.

/// A number that depends on all that was added, in order.
#[derive(Clone, Copy)]
pub struct Digest(u64);

impl Digest {
    pub fn new() -> Digest {
        Digest(0x2545_f491_4f6c_dd1d)
    }

    pub fn value(self) -> u64 {
        self.0
    }

    /// Adds a number.
    #[inline]
    pub fn add(&mut self, number: u64) {
        let mixed = (self.0 ^ number).wrapping_mul(0x9e37_79b9_7f4a_7c15);
        self.0 = mixed.rotate_left(29);
    }

    /// Adds bytes, each of which counts by its place.
    pub fn add_bytes(&mut self, bytes: &[u8]) {
        let (words, rest) = bytes.as_chunks::<8>();
        let (mut sum, mut sums) = (bytes.len() as u64, 0u64);
        for word in words {
            sum = sum.wrapping_add(u64::from_le_bytes(*word));
            sums = sums.wrapping_add(sum);
        }
        for byte in rest {
            sum = sum.wrapping_add(u64::from(*byte));
            sums = sums.wrapping_add(sum);
        }
        self.add(sum);
        self.add(sums);
    }

    /// Adds what a command answered and wrote.
    pub fn add_output(&mut self, status: u8, out: &[u8], err: &[u8]) {
        self.add(u64::from(status));
        self.add_bytes(out);
        self.add_bytes(err);
    }
}
