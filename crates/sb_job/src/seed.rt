//! What the hashes of a table begin with.
use std::hash::{BuildHasher, DefaultHasher, RandomState};
use std::random::RandomSource;

/// What the hashes of a table's keys begin with (SipHash-1-3). Where it is drawn, nobody who chooses keys can choose such as
/// collide. No output depends on it.
#[derive(Clone, Copy)]
pub struct Seed {
    initial: DefaultHasher,
}

impl Seed {
    /// The same seed each time.
    pub fn fixed() -> Seed {
        Seed {
            initial: DefaultHasher::new(),
        }
    }

    /// A seed of the system's randomness, and the fixed one where that gives none.
    pub fn drawn<R: RandomSource>(rt: &R) -> Seed {
        match RandomState::new(rt) {
            Ok(state) => Seed {
                initial: state.build_hasher(),
            },
            Err(_) => Seed::fixed(),
        }
    }
}

impl BuildHasher for Seed {
    type Hasher = DefaultHasher;

    ghost build_hasher = { λ seed. seed.initial };

    fn build_hasher(&self) -> DefaultHasher {
        self.initial
    }
}
