// What the calls answer.

// The joined roll's length in bytes, its number of Paulis, and its number of distinct qubits.
#[derive(Clone, Copy)]
pub struct JoinedSizes {
    pub bytes: usize,
    pub count: usize,
    pub qubits: usize,
}
