// Why a call is refused, and where.
ghost use Rattle.std.specs.Prelude.{◌≡◌};
ghost use Rattle.pauli.specs.Refusals.{number_of};

use std::fmt;

// The reasons, with the number that a caller is told for each; none has 5.
#[derive(Clone, Copy)]
pub enum Reason {
    // The roll is cut, or its length is not that of its table.
    Length = 1,
    // More Paulis than a list may have.
    Paulis = 2,
    // An entry of the table is not as it has to be.
    Entry = 3,
    // The exponent is missing.
    Exponent = 4,
    // A set does not rise strictly.
    Rising = 6,
    // More distinct qubits than a list may have.
    Qubits = 7,
    // A generator or element number is past its list.
    Number = 8,
    // The work area is too short.
    Work = 9,
    // The listing is too large.
    Listing = 10,
    // The divisor is no subgroup.
    Subgroup = 11,
    // The output is shorter than the result.
    Output = 12,
    // The named support does not rise strictly, or is too large together with the list's own.
    Support = 13,
    // A line is empty, too long, ill-formed, or names a roll that was not sent.
    Line = 14,
    // A line's parentheses are too deep.
    Depth = 15,
    // A claim's indexes do not rise strictly or pass the list, or its exponent is above 3.
    Claim = 16,
    // A window's width is outside 1 to 64.
    Width = 17,
    // A roll that is sent to a window does not have exactly one Pauli.
    Checks = 18,
    // No mark of a window has the name.
    Mark = 19,
    // A window holds eight marks, and none has the new name.
    Marks = 20,
}

// A refusal's reason and its place: the Pauli's index in its own roll, or 0.
#[derive(Clone, Copy)]
pub struct Refusal {
    pub reason: Reason,
    pub place: usize,
}

// A call is refused as a whole: its place is 0.
impl From<Reason> for Refusal {
    ghost from_gives = { λ reason refusal. refusal ≡ record { reason = reason; place = 0 } };

    fn from(reason: Reason) -> Refusal {
        Refusal { reason, place: 0 }
    }
}

impl fmt::Display for Refusal {
    fn fmt<W: fmt::Write>(&self, f: &mut fmt::Formatter<W>) -> fmt::Result {
        write!(f, "refused {} at {}", number_of(self.reason), self.place)
    }
}

// The number that a caller is told for a reason. A function, so that the cast and what it gives stand once.
pub fn number_of(reason: Reason) -> usize
    ensures { result ≡ number_of reason }
{
    reason as usize
}
