// The call for the product of two Paulis of rolls.
ghost use Rattle.std.specs.Prelude.{◌≡◌, ◌≤◌, length};
ghost use Rattle.pauli.specs.Condense.{Readable, list_of};
ghost use Rattle.pauli.specs.Product.{product_bytes, made_over};
ghost use Rattle.pauli.specs.ProductAnswers.{made_in};
ghost use Rattle.pauli.specs.ProductContract.{ProductCall};
ghost use Rattle.pauli.specs.Told.{answer};
ghost use Rattle.pauli.specs.Writing.{left_in};
ghost use Rattle.pauli.specs.Refusals.{told_by};

use crate::condense::condense_from;
use crate::joined::join_support;
use crate::one_qubit::multiply;
use crate::refusal::{Reason, Refusal};
use crate::roll::Roll;
use crate::signed::store;
use crate::write::write_roll;

// How many bytes the product's roll has, and whether its factors anticommute.
#[derive(Clone, Copy)]
pub struct Multiplied {
    pub bytes: usize,
    pub anticommute: bool,
}

// Writes the product of Pauli i of the one roll and Pauli j of the other, over a support that has their qubits.
fn write_product(
    left: Roll,
    i: usize,
    right: Roll,
    j: usize,
    support: &[u32],
    out: &mut [u8],
) -> Result<Multiplied, Refusal>
    requires { Readable left.bytes.now left.count i support.now × Readable right.bytes.now right.count j support.now × (length support.now ≤ 128) }
    ensures told { told_by made_in result ≡ made_over support.now (list_of left.entry.bytes.now) i (list_of right.entry.bytes.now) j out.old }
    ensures left { out.new ≡ left_in (answer (product_bytes support.now (list_of left.entry.bytes.now) i (list_of right.entry.bytes.now) j)) out.old }
{
    let p = condense_from(left, i, support);
    let q = condense_from(right, j, support);
    let product = multiply(p, q);
    let mut w = [0u64; 5];
    store(&mut w, 0, product.pauli);
    let bytes = write_roll(&[w], support, out)?;
    Ok(Multiplied {
        bytes,
        anticommute: product.anticommute,
    })
}

// Multiplies factor i of the one roll by factor j of the other, writes the product as a roll, and tells whether the two anticommute.
pub fn product(
    left: &[u8],
    i: usize,
    right: &[u8],
    j: usize,
    out: &mut [u8],
) -> Result<Multiplied, Refusal>
    ensures { ProductCall left.now i right.now j out.old result out.new }
{
    let left = Roll::read(left)?;
    let right = Roll::read(right)?;
    let support = join_support(left, right);
    if support.is_past_limit() {
        return Err(Reason::Qubits.into());
    }
    if i >= left.count {
        return Err(Reason::Number.into());
    }
    if j >= right.count {
        return Err(Reason::Number.into());
    }
    write_product(left, i, right, j, support.qubits(), out)
}
