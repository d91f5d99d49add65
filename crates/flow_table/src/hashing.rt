//! How the table hashes its keys.

use std::hash::{BuildHasher, FoldHasher, Hasher};

/// Makes the hasher of each key, with the same beginning: that of std's maps, or one that has taken a seed.
/// It decides how long a call of the table takes, and never what it answers.
#[derive(Clone, Copy)]
pub(crate) struct KeyHashing {
    beginning: FoldHasher,
}

impl KeyHashing {
    /// The beginning that std's maps have. Whoever knows it can choose keys that collide.
    pub(crate) fn fixed() -> KeyHashing {
        KeyHashing {
            beginning: FoldHasher::default(),
        }
    }

    /// A beginning of its own for each seed.
    pub(crate) fn seeded(seed: u64) -> KeyHashing {
        let mut beginning = FoldHasher::default();
        beginning.write_u64(seed);
        KeyHashing { beginning }
    }
}

impl BuildHasher for KeyHashing {
    type Hasher = FoldHasher;

    ghost build_hasher = { λ s. s.beginning };

    fn build_hasher(&self) -> FoldHasher {
        self.beginning
    }
}

/// A seed out of the time of a packet, in seconds and a fraction of one as its record has them, and of the
/// bytes of its frame. Another time or another frame makes another seed, but for rare chances. Who sends
/// packets from afar knows neither; who writes a whole capture knows both.
pub fn seed_of(seconds: u32, fraction: u32, frame: &[u8]) -> u64 {
    let mut hasher = FoldHasher::default();
    hasher.write_u32(seconds);
    hasher.write_u32(fraction);
    hasher.write(frame);
    hasher.finish()
}
