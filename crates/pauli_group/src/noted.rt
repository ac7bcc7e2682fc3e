// Exponents noted for the elements of the common basis. The structs are a file of their own: what is said of them names them.
ghost use Rattle.std.specs.Prelude.{◌<◌};
ghost use Rattle.std.specs.List.{AllWithin};

use crate::answers::Phases;
use pauli::roll::MOST_PAULIS;
use pauli::signed::Pauli;

// The phases of a group, and for each Pauli of the further list the exponent of the product of generators that solves for it.
#[derive(Drop)]
pub(crate) struct Exponents {
    pub phases: Phases,
    pub by: [u8; MOST_PAULIS],
    ghost low: { AllWithin (λ e. e < 4) by 0 128 },
}

// An element, and the exponents of the products of either group that have its sets.
#[derive(Clone, Copy)]
pub(crate) struct Noted {
    pub pauli: Pauli,
    pub left: u8,
    pub right: u8,
    ghost low: { (left < 4) × (right < 4) },
}
