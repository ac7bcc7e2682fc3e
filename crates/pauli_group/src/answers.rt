// What the calls on one list answer.
ghost use Rattle.std.specs.Prelude.{◌≡◌, ◌-◌, ◌/◌, ◌<◌, ◌≤◌};
ghost use Rattle.pauli_group.specs.Inner.Lists.{step_told};

// The phases of a group.
#[derive(Clone, Copy)]
pub enum Phases {
    Zero,
    ZeroTwo,
    All,
}

impl Phases {
    // The step between the phases.
    pub fn step(self) -> u64
        ensures { (result ≡ step_told self) × (0 < result) × (result ≤ 4) }
    {
        match self {
            Phases::Zero => 4,
            Phases::ZeroTwo => 2,
            Phases::All => 1,
        }
    }

    // How many phases there are.
    pub fn count(self) -> u64
        ensures { (result ≡ 4 / step_told self) × (0 < result) × (result ≤ 4) }
    {
        match self {
            Phases::Zero => 1,
            Phases::ZeroTwo => 2,
            Phases::All => 4,
        }
    }

    // The binary logarithm of how many there are.
    pub fn log2_count(self) -> usize
        ensures { (result ≡ 2 - step_told self / 2) × (result ≤ 2) }
    {
        match self {
            Phases::Zero => 0,
            Phases::ZeroTwo => 1,
            Phases::All => 2,
        }
    }
}

// How many generators the index set has, and the exponent left.
#[derive(Clone, Copy)]
pub struct Factors {
    pub count: usize,
    pub exponent: u8,
}
