// The picks that a seed gives.
ghost use Rattle.std.specs.Prelude.{◌≡◌, ℕ};
ghost use Rattle.rx_machine.specs.Seeds.{word_at, seed_word};

use crate::picks::Picks;
use rand_core::utils::NextWord;
use rand_pcg::Lcg64Xsh32;

/// The picks of a seed: the 32-bit words of the generator PCG XSH RR 64/32 that starts from the seed, on its stream 0.
#[derive(Drop)]
pub struct SeedPicks {
    generator: Lcg64Xsh32,
}

impl SeedPicks {
    /// Before its first pick. It takes no memory.
    pub fn open(seed: u64) -> SeedPicks
        ensures { (j : ℕ) → ⟦<SeedPicks as Picks>⟧.number result j ≡ seed_word seed j }
    {
        SeedPicks {
            generator: Lcg64Xsh32::new(seed, 0),
        }
    }
}

impl Picks for SeedPicks {
    ghost number = { λ s j. word_at s.generator j };

    fn next(&mut self) -> u32 {
        self.generator.next_word()
    }
}
