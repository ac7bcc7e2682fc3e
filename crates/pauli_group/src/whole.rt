// The elements of the common basis that the common part is made of.
ghost use Rattle.std.specs.Prelude.{◌≡◌, ◌*◌, ◌<◌, ◌≤◌};
ghost use Rattle.std.proofs.Math.Option.{none};
ghost use Rattle.pauli.specs.Signed.{held, list_in};
ghost use Rattle.pauli_theory.specs.Common.{with_exponent};
ghost use Rattle.pauli_theory.specs.WholeCommon.{or_else, if_none, paired, kept_from};
ghost use Rattle.pauli_theory.specs.Inner.WholePlaces.{shared_pauli, times_noted};
ghost use Rattle.pauli_group.specs.Inner.Area.{list_at};
ghost use Rattle.pauli_group.specs.Inner.Lists.{step_told};
ghost use Rattle.pauli_group.specs.Inner.Whole.{noted_in, first_told, pauli_told, noted_list};

use crate::answers::Phases;
use crate::area::{FURTHER, LIST, WORK_WORDS};
use crate::common::shared_exponent;
use crate::noted::{Exponents, Noted};
use pauli::signed::{Pauli, load, store};

// p with this exponent.
fn with_exponent(e: u8, p: Pauli) -> Pauli
    ensures { held result ≡ with_exponent e (held p) }
{
    Pauli { exponent: e, ..p }
}

impl Noted {
    // The product of two elements, and of the products of either group.
    fn times(self, other: Noted) -> Noted
        ensures { noted_in result ≡ times_noted (noted_in self) (noted_in other) }
    {
        let left = with_exponent(self.left, self.pauli).times(with_exponent(
            other.left,
            other.pauli,
        ));
        let right = with_exponent(self.right, self.pauli).times(with_exponent(
            other.right,
            other.pauli,
        ));
        Noted {
            pauli: right.pauli,
            left: left.pauli.exponent % 4,
            right: right.pauli.exponent % 4,
        }
    }

    // The element with the first exponent with which both groups have it, by the phases of the groups.
    fn shared(self, first: Phases, second: Phases) -> Option<Pauli>
        ensures { pauli_told result ≡ shared_pauli (step_told first) (step_told second) (noted_in self) }
    {
        match shared_exponent(first, second, self.left, self.right) {
            Some(e) => Some(with_exponent(e, self.pauli)),
            None => None,
        }
    }
}

// What is kept of an element: it with its shared exponent; if it has none, its product with the first such element.
fn kept_of(noted: Noted, dropped: Option<Noted>, first: Phases, second: Phases) -> Option<Pauli>
    ensures { pauli_told result ≡ or_else (shared_pauli (step_told first) (step_told second) (noted_in noted)) (paired (shared_pauli (step_told first) (step_told second)) times_noted (first_told dropped) (noted_in noted)) }
{
    match noted.shared(first, second) {
        Some(p) => Some(p),
        None => match dropped {
            Some(earlier) => noted.times(earlier).shared(first, second),
            None => None,
        },
    }
}

// The first element with no shared exponent, once this one is looked at.
fn next_dropped(
    noted: Noted,
    dropped: Option<Noted>,
    first: Phases,
    second: Phases,
) -> Option<Noted>
    ensures { first_told result ≡ or_else (first_told dropped) (if_none (shared_pauli (step_told first) (step_told second) (noted_in noted)) (noted_in noted)) }
{
    match dropped {
        Some(earlier) => Some(earlier),
        None => match noted.shared(first, second) {
            Some(_) => None,
            None => Some(noted),
        },
    }
}

// Puts at the generators' place, of the m Paulis of the further list, those that have a shared exponent, with it, and of the others
// each but the first, times the first; tells how many there are.
pub(crate) fn keep_whole(
    w: &mut [u64; WORK_WORDS],
    m: usize,
    first: &Exponents,
    second: &Exponents,
) -> usize
    requires { m ≤ 128 }
    ensures few { result ≤ m }
    ensures list { list_in w.new list_at result ≡ kept_from (shared_pauli (step_told first.now.phases) (step_told second.now.phases)) times_noted none (noted_list first.now.by second.now.by w.old m) }
{
    let mut dropped = None;
    let mut kept = 0;
    for i in 0..m {
        let noted = Noted {
            pauli: load(w, FURTHER + 5 * i),
            left: first.by[i],
            right: second.by[i],
        };
        if let Some(p) = kept_of(noted, dropped, first.phases, second.phases) {
            store(w, LIST + 5 * kept, p);
            kept += 1;
        }
        dropped = next_dropped(noted, dropped, first.phases, second.phases);
    }
    kept
}
