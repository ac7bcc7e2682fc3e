// What the caller promises of a list.
#[derive(Clone, Copy)]
pub enum Promise {
    None,
    Abelian,
    NotAbelian,
}

// What the caller promises of two lists.
#[derive(Clone, Copy)]
pub struct Promises {
    pub left: Promise,
    pub right: Promise,
}

impl From<u64> for Promise {
    ghost use Rattle.std.specs.Prelude.{◌≡◌};
    ghost use Rattle.pauli_group.specs.Promises.{promise_of, promise_numbered};

    ghost from_gives = { λ number promise. promise_of promise ≡ promise_numbered number };

    fn from(number: u64) -> Promise {
        match number {
            1 => Promise::Abelian,
            2 => Promise::NotAbelian,
            _ => Promise::None,
        }
    }
}
