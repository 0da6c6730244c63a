ghost use Rattle.std.specs.Prelude.{◌≤◌, ◌<◌};

// Numbers that follow from a seed, by a linear congruence.
#[derive(Drop)]
pub(crate) struct Chance {
    state: u64,
}

impl Chance {
    pub(crate) fn new(seed: u64) -> Self {
        Chance { state: seed }
    }

    // A number from 1 to `most`.
    pub(crate) fn up_to(&mut self, most: u32) -> u32
        requires { 1 ≤ most }
        ensures least { 1 ≤ result }
        ensures most { result ≤ most }
    {
        self.state = self
            .state
            .wrapping_mul(6364136223846793005)
            .wrapping_add(1442695040888963407);
        let number = (self.state >> 33) % u64::from(most);
        number as u32 + 1
    }
}
