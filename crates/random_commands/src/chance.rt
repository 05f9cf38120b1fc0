use rand_core::Rng;
use rand_pcg::Pcg32;

// Numbers that a seed gives.
#[derive(Drop)]
pub(crate) struct Chance {
    words: Pcg32,
}

impl Chance {
    pub(crate) fn new(seed: u64, stream: u64) -> Chance {
        Chance {
            words: Pcg32::new(seed, stream),
        }
    }

    // A number below the bound; 0 where the bound is 0.
    pub(crate) fn below(&mut self, bound: usize) -> usize {
        if bound == 0 {
            return 0;
        }
        let word = self.words.next_u32() as usize;
        word % bound
    }

    // A number from 0 to the greatest. Each second time it is the greatest.
    pub(crate) fn up_to(&mut self, greatest: usize) -> usize {
        if self.one_in(2) {
            greatest
        } else {
            self.below(greatest.saturating_add(1))
        }
    }

    pub(crate) fn one_in(&mut self, count: usize) -> bool {
        self.below(count) == 0
    }

    pub(crate) fn value(&mut self) -> u64 {
        self.words.next_u64()
    }
}
