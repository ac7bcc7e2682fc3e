// The call for the sizes of two lists joined.
ghost use Rattle.sizes.specs.SizeContracts.{JoinedSizesCall};

use crate::answers::JoinedSizes;
use pauli::joined::{Pair, joined_bytes, joined_qubits};
use pauli::refusal::Refusal;

// How large the joined roll of two lists is.
pub fn joined_sizes(left: &[u8], right: &[u8]) -> Result<JoinedSizes, Refusal>
    ensures { JoinedSizesCall left.now right.now result }
{
    let pair = Pair::read(left, right)?;
    let bytes = joined_bytes(pair.left, pair.right);
    let count = pair.left.count + pair.right.count;
    let qubits = joined_qubits(pair.left, pair.right);
    Ok(JoinedSizes {
        bytes,
        count,
        qubits,
    })
}
