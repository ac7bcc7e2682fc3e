// Signed Paulis over the places of a support: i^exponent times X on the places of x, then Z on those of z.
ghost use Rattle.std.specs.Prelude.{◌≡◌, ◌+◌, ◌*◌, ◌<◌, ◌≤◌, length, ◌==◌};
ghost use Rattle.std.proofs.lemmas.List.Edits.{sets};
ghost use Rattle.binar.specs.Row.{dot};
ghost use Rattle.pauli.specs.Pauli.{I, anticommute, pauli_weight, order_four, is_identity};
ghost use Rattle.pauli.specs.Signed.{held, pauli_in, pauli_words, list_in, paulis_in, stored, times_stored, product_stored};
ghost use Rattle.pauli.specs.PlaceSet.{set_in};

use crate::places::Places;

// The exponent is eight bits and wraps; its value is its remainder by 4.
#[derive(Clone, Copy)]
pub struct Pauli {
    pub exponent: u8,
    pub x: Places,
    pub z: Places,
}

// What a multiplication gives: the product, and whether its factors anticommute.
#[derive(Clone, Copy)]
pub struct Product {
    pub pauli: Pauli,
    pub anticommute: bool,
}

// How two factors overlap.
#[derive(Clone, Copy)]
struct Crossed {
    // 1 where z of the left one and x of the right one share an odd number of places, which makes a minus sign, else 0: a number, as
    // what `dot` gives
    sign: u64,
    anticommute: bool,
}

// The one test of anticommutation: one walk over the words of the factors' sets. It collects what z of the left one shares with u, x of
// the right one; and, merged with that, what x of the left one shares with v, z of the right one.
fn cross(p: Pauli, q: Pauli) -> Crossed
    ensures sign { (result.sign ≡ dot (set_in p.z) (set_in q.x)) × (result.sign < 2) }
    ensures anticommute { result.anticommute ≡ (anticommute (held p) (held q) == 1) }
{
    let x = [p.x.low, p.x.high];
    let z = [p.z.low, p.z.high];
    let u = [q.x.low, q.x.high];
    let v = [q.z.low, q.z.high];
    let mut crossed = 0u64;
    let mut clashing = 0u64;
    for i in 0..2 {
        let zu = z[i] & u[i];
        crossed = crossed ^ zu;
        clashing = clashing ^ (x[i] & v[i]) ^ zu;
    }
    Crossed {
        sign: (u64::count_ones(crossed) % 2) as u64,
        anticommute: u64::count_ones(clashing) % 2 == 1,
    }
}

impl Pauli {
    pub fn identity() -> Pauli
        ensures { held result ≡ I }
    {
        Pauli {
            exponent: 0,
            x: Places::none(),
            z: Places::none(),
        }
    }

    // The Pauli whose five words these are.
    pub fn from_words(words: &[u64; 5]) -> Pauli
        ensures { held result ≡ stored (pauli_in words.now 0) }
    {
        Pauli {
            exponent: (words[0] % 256) as u8,
            x: Places {
                low: words[1],
                high: words[2],
            },
            z: Places {
                low: words[3],
                high: words[4],
            },
        }
    }

    // Its five words, the exponent by value.
    fn words(self) -> [u64; 5]
        ensures { result ≡ pauli_words self }
    {
        let x = self.x;
        let z = self.z;
        [(self.exponent % 4) as u64, x.low, x.high, z.low, z.high]
    }

    // The product with other on the right, and whether the two anticommute. No `*`, since it tells both.
    pub fn times(self, other: Pauli) -> Product
        ensures pauli { held result.pauli ≡ times_stored (held self) (held other) }
        ensures anticommute { result.anticommute ≡ (anticommute (held self) (held other) == 1) }
    {
        let ux = other.x;
        let uz = other.z;
        let x = self.x;
        let z = self.z;
        let crossed = cross(self, other);
        let sum = self.exponent.wrapping_add(other.exponent);
        let sign = (2 * crossed.sign) as u8;
        Product {
            pauli: Pauli {
                exponent: sum.wrapping_add(sign),
                x: x ^ ux,
                z: z ^ uz,
            },
            anticommute: crossed.anticommute,
        }
    }

    // How many places are in x or z.
    pub fn weight(self) -> usize
        ensures { result ≡ pauli_weight (held self) }
    {
        let x = self.x;
        let z = self.z;
        (x | z).weight()
    }

    // Whether the square is the identity.
    pub fn is_order_two(self) -> bool
        ensures { result ≡ (order_four (held self) == 0) }
    {
        let x = self.x;
        let z = self.z;
        let e = self.exponent as u64;
        (e + x.dot(z)) % 2 == 0
    }

    pub fn is_identity(self) -> bool
        ensures { result ≡ is_identity (held self) }
    {
        let x = self.x;
        let z = self.z;
        if self.exponent % 4 != 0 {
            return false;
        }
        (x | z).is_zero()
    }
}

// The Pauli whose five words start at word at.
pub fn load(w: &[u64], at: usize) -> Pauli
    requires { at + 5 ≤ length w.now }
    ensures { held result ≡ stored (pauli_in w.now at) }
{
    Pauli::from_words(w[at..].first_chunk::<5>().unwrap())
}

// The n Paulis from word base on, each as its five words. The bound stands here for all that read a list from words.
pub fn fives_at(w: &[u64], base: usize, n: usize) -> &[[u64; 5]]
    requires { base + 5 * n ≤ length w.now }
    ensures list { paulis_in result.now ≡ list_in w.now base n }
    ensures count { length result.now ≡ n }
{
    w[base..base + 5 * n].as_chunks::<5>().0
}

// Writes a Pauli to the five words from word at on. Here and in `load`, five words of a lent area are named by where they start.
pub fn store(w: &mut [u64], at: usize, p: Pauli)
    requires { at + 5 ≤ length w.old }
    ensures { w.new ≡ sets w.old at (pauli_words p) }
{
    w[at..at + 5].copy_from_slice(&p.words());
}

// The product of those Paulis of the list whose numbers are in the set, in rising order. The numbers of an index set are places
// too: places in the list of generators.
pub fn indexed_product(list: &[[u64; 5]], set: Places) -> Pauli
    ensures { held result ≡ product_stored (set_in set) (paulis_in list.now) }
{
    let mut product = Pauli::identity();
    for p in set.iter() {
        if let Some(words) = list.get(p.0) {
            product = product.times(Pauli::from_words(words)).pauli;
        }
    }
    product
}
