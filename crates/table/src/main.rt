// The products of the sixteen signed Paulis on one qubit: a line for each left factor, a number for each right one.

#![tactic(auto)]

use pauli::one_qubit::PRODUCTS;
use std::io;
use std::io::Write;

fn main(rt: HostRuntime) -> io::Result<()> {
    let mut out = io::writer(&rt);
    for (k, product) in PRODUCTS.iter().enumerate() {
        write!(out, "{product}")?;
        if k % 16 < 15 {
            write!(out, " ")?;
        } else {
            writeln!(out)?;
        }
    }
    Ok(())
}
