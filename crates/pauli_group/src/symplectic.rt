// The call for symplectic pairing.
ghost use Rattle.std.specs.Prelude.{◌≡◌, IfSome, ◌+◌, ◌-◌, ◌*◌, ◌<◌, ◌≤◌, map, length};
ghost use Rattle.pauli.specs.Condense.{list_of};
ghost use Rattle.pauli.specs.Pauli.{normal};
ghost use Rattle.pauli.specs.Signed.{held, list_in, paulis_in};
ghost use Rattle.pauli.specs.Told.{answer};
ghost use Rattle.pauli.specs.Writing.{told_bytes, left_in};
ghost use Rattle.pauli_theory.specs.Symplectic.{position, cleared as cleared_by, symplectic_form};
ghost use Rattle.pauli_group.specs.Inner.Area.{list_at, standard_at, Outside};
ghost use Rattle.pauli_group.specs.WorkArea.{cleared};
ghost use Rattle.pauli_group.specs.Calls.{paulis, symplectic_bytes};
ghost use Rattle.pauli_group.specs.CallContracts.{SymplecticCall};
ghost use Rattle.pauli_group.specs.Inner.Lists.{found};
ghost use Rattle.pauli_group.specs.Inner.Pairs.{times_if_stored, PairedTo};
ghost use Rattle.pauli.specs.Refusals.{told_of};

use crate::area::{FURTHER, LIST, STANDARD, Span, WORK_WORDS, area_of, clear};
use crate::checks::check_list;
use crate::list::{copy_list, read_list};
use pauli::refusal::Refusal;
use pauli::roll::Roll;
use pauli::signed::{Pauli, load, store};
use pauli::support::Support;
use pauli::write::write_roll;

// How many Paulis are left in the list, how many conjugate elements stand at the standard generators' place, and how many
// commuting ones at the further list's.
#[derive(Clone, Copy)]
pub(crate) struct Pairing {
    pub left: usize,
    pub conjugate: usize,
    pub commuting: usize,
}

// The number of the first Pauli of a list that anticommutes with x.
fn first_anticommuting(list: &[[u64; 5]], x: Pauli) -> Option<usize>
    ensures position { found result ≡ position (held x) 0 (paulis_in list.now) }
    ensures below { IfSome result (λ k. k < length list.now) }
{
    list.iter()
        .position(|words| x.times(Pauli::from_words(words)).anticommute)
}

// g times q, if g anticommutes with p.
fn times_if(p: Pauli, q: Pauli, g: Pauli) -> Pauli
    ensures { held result ≡ times_if_stored (held p) (held q) (held g) }
{
    if g.times(p).anticommute {
        return g.times(q).pauli;
    }
    g
}

// Makes the Paulis of a list commute with x and z, a pair that anticommutes: those from number k on may anticommute with both,
// those before it only with z.
// A loop of its own: one over a closure would tell what the closure's relation says, to be turned back into this equation.
fn clear_pair(w: &mut [u64; WORK_WORDS], list: Span, k: usize, x: Pauli, z: Pauli)
    requires { k ≤ list.count }
    ensures list { list_in w.new list.base list.count ≡ map normal (cleared_by k (held x) (held z) (list_in w.old list.base list.count)) }
    ensures rest { Outside list.base (5 * list.count) w.old w.new }
{
    for i in 0..list.count {
        let mut g = load(w, list.base + 5 * i);
        if i >= k {
            g = times_if(x, z, g);
        }
        store(w, list.base + 5 * i, times_if(z, x, g));
    }
}

// Takes the last Pauli of the list out: with the first one that anticommutes with it, as a pair of conjugate elements, or alone, as
// a commuting one.
fn pair_last(w: &mut [u64; WORK_WORDS], p: Pairing) -> Pairing
    requires { (0 < p.left) × (p.left + p.conjugate + p.commuting ≤ 128) }
    ensures { PairedTo w.old p w.new result }
{
    let m = p.left - 1;
    let others = Span::at(LIST, m);
    let x = load(w, LIST + 5 * m);
    let k = match first_anticommuting(others.paulis(w), x) {
        Some(k) => k,
        None => {
            store(w, FURTHER + 5 * p.commuting, x);
            return Pairing {
                left: m,
                conjugate: p.conjugate,
                commuting: p.commuting + 1,
            };
        }
    };
    let z = load(w, LIST + 5 * k);
    let last = load(w, LIST + 5 * (m - 1));
    store(w, LIST + 5 * k, last);
    let rest = Span::at(LIST, m - 1);
    clear_pair(w, rest, k, x, z);
    store(w, STANDARD + 5 * p.conjugate, x);
    store(w, STANDARD + 5 * (p.conjugate + 1), z);
    Pairing {
        left: m - 1,
        conjugate: p.conjugate + 2,
        commuting: p.commuting,
    }
}

// Pairs the n Paulis of the list; the result stands at the standard generators' place.
fn pair_up(w: &mut [u64; WORK_WORDS], n: usize)
    requires { n ≤ 128 }
    ensures { list_in w.new standard_at n ≡ map normal (symplectic_form (list_in w.old list_at n)) }
{
    let mut p = Pairing {
        left: n,
        conjugate: 0,
        commuting: 0,
    };
    while p.left > 0 {
        p = pair_last(w, p);
    }
    let commuting = Span::at(FURTHER, p.commuting);
    copy_list(w, commuting, STANDARD + 5 * p.conjugate);
}

// Writes the paired list of a roll, and clears the work area.
fn write_symplectic(roll: Roll, w: &mut [u64; WORK_WORDS], out: &mut [u8]) -> Result<usize, Refusal>
    ensures told { told_of result ≡ told_bytes (answer (symplectic_bytes (paulis (list_of roll.entry.bytes.now)))) out.old }
    ensures left { out.new ≡ left_in (answer (symplectic_bytes (paulis (list_of roll.entry.bytes.now)))) out.old }
    ensures area { w.new ≡ cleared w.old }
{
    let mut known = Support::new();
    roll.gather(&mut known);
    let qubits = known.qubits();
    read_list(roll, qubits, w, LIST);
    pair_up(w, roll.count);
    let paired = Span::at(STANDARD, roll.count);
    let wrote = write_roll(paired.paulis(w), qubits, out);
    clear(w);
    wrote
}

// Writes a list that generates the same group, in pairs that anticommute; all else commutes.
pub fn symplectic_form_of(b: &[u8], work: &mut [u64], out: &mut [u8]) -> Result<usize, Refusal>
    ensures { SymplecticCall b.now work.old out.old result work.new out.new }
{
    let roll = check_list(b, work.len())?;
    write_symplectic(roll, area_of(work), out)
}
