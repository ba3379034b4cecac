// Random numbers from a seed, so that a run can be repeated: splitmix64.
ghost use Rattle.std.specs.Prelude.{◌≡◌, ◌/◌, ◌^◌, ◌<◌, length, Contains};

#[derive(Clone, Copy)]
pub struct Rng {
    state: u64,
}

impl Rng {
    pub fn new(seed: u64) -> Rng {
        Rng { state: seed }
    }

    pub fn word(&mut self) -> u32 {
        self.state = self.state.wrapping_add(0x9e37_79b9_7f4a_7c15);
        let a = self.state;
        let b = (a ^ a >> 30).wrapping_mul(0xbf58_476d_1ce4_e5b9);
        let c = (b ^ b >> 27).wrapping_mul(0x94d0_49bb_1331_11eb);
        upper_half(c ^ c >> 31)
    }

    // Below a bound; 0 where that is 0.
    pub fn below(&mut self, bound: u32) -> u32
        ensures { 0 < bound → result < bound }
    {
        if bound == 0 {
            return 0;
        }
        self.word() % bound
    }

    // One of several.
    pub fn pick<T: Copy>(&mut self, choices: &[T]) -> T
        requires some { 0 < length choices.now }
        requires countable { length choices.now < 2 ^ 32 }
        ensures { Contains choices.now result }
    {
        let place = self.below(choices.len() as u32);
        choices[place as usize]
    }
}

fn upper_half(x: u64) -> u32
    ensures { result ≡ x / 2 ^ 32 }
{
    (x >> 32) as u32
}
