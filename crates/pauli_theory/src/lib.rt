// Groups of signed Paulis: definitions, laws and their proofs. The crate has no code; the group calls stand on it.

#![tactic(auto)]
