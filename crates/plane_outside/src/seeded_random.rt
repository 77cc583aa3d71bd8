ghost use Rattle.std.specs.Prelude.{◌≡◌, Some};
ghost use Rattle.rand_chacha.specs.ChaCha.{of_seed};
ghost use Rattle.plane_outside.specs.Words.{word_from};

use crate::random::Random;
use rand_chacha::ChaCha20Rng;
use rand_core::SeedableRng;
use rand_core::utils::NextWord;
use std::marker::Model;

/// The generator ChaCha20 (RFC 8439) of a seed. Two of its words of 32 bits make one of 64, the
/// first of them the low half.
#[derive(Drop)]
pub struct SeededRandom {
    generator: ChaCha20Rng,
}

impl Model for SeededRandom {
    ghost use Rattle.rand_chacha.specs.ChaCha.{ChaCha};

    ghost Value = { ChaCha };

    ghost view = { λ random. random.generator };
}

impl SeededRandom {
    /// The generator of these 32 bytes.
    pub fn new(seed: [u8; 32]) -> SeededRandom
        ensures { result ≡ of_seed seed }
    {
        SeededRandom {
            generator: ChaCha20Rng::from_seed(seed),
        }
    }
}

impl Random for SeededRandom {
    ghost words = { λ random. Some (word_from random) };

    ghost faults = { λ random. 0 };

    fn word(&mut self) -> u64 {
        let low = self.generator.next_word();
        let high = self.generator.next_word();
        u64::from(low) + 4_294_967_296 * u64::from(high)
    }
}
