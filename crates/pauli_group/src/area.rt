// The work area. The echelon form stands at its front; then come a row to solve for, the generators, the standard
// generators and a further list.
ghost use Rattle.std.specs.Prelude.{◌≡◌, ℕ, ◌+◌, ◌*◌, ◌≤◌, List, length, take};
ghost use Rattle.pauli.specs.Signed.{list_in, paulis_in};
ghost use Rattle.std.specs.Borrow.{sem};
ghost use Rattle.pauli_group.specs.WorkArea.{LendsArea, cleared};

use binar::row::clear_bits;
use pauli::signed::fives_at;

// A work area has at least so many words, and only these are used.
pub const WORK_WORDS: usize = 4096;
// Where a row to solve for stands.
pub(crate) const TARGET: usize = 1040;
// Where the generators stand, five words each.
pub(crate) const LIST: usize = 1056;
// Where the standard generators stand, five words each.
pub(crate) const STANDARD: usize = 1712;
// Where a further list stands, five words each.
pub const FURTHER: usize = 2368;
// R's words of a row of the form.
pub const ROW_WORDS: usize = 4;

// A list of Paulis in the work area, five words each: count of them from word base on.
#[derive(Clone, Copy)]
pub struct Span {
    pub base: usize,
    pub count: usize,
    pub ghost inside: { base + 5 * count ≤ 4096 },
}

impl Span {
    pub fn at(base: usize, count: usize) -> Span
        requires { base + 5 * count ≤ 4096 }
        ensures { (result.base ≡ base) × (result.count ≡ count) }
    {
        Span { base, count }
    }

    // The Paulis, each as its five words.
    pub fn paulis(self, w: &[u64; WORK_WORDS]) -> &[[u64; 5]]
        ensures list { paulis_in result.now ≡ list_in w.now self.base self.count }
        ensures count { length result.now ≡ self.count }
    {
        fives_at(w, self.base, self.count)
    }
}

// The words that a call uses of a work area that has enough.
pub fn area_of(work: &mut [u64]) -> &mut [u64; WORK_WORDS]
    requires { 4096 ≤ length work.old }
    ensures* writes_back { sem 𝓛 (LendsArea work.entry result) }
    ensures value { result.now ≡ take 4096 work.old }
{
    work.first_chunk_mut::<WORK_WORDS>().unwrap()
}

// Makes the words of the area zero, as a call leaves them. The clause speaks of every area as long: so it holds of the one that the
// call was given, whatever its work has left there.
pub fn clear(w: &mut [u64; WORK_WORDS])
    ensures { (work : List ℕ) → length work ≡ 4096 → w.new ≡ cleared work }
{
    clear_bits(w, 0, WORK_WORDS);
}
