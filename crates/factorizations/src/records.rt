// The records of results: the length of each, and the record put into an output.
ghost use Rattle.std.specs.Prelude.{◌≡◌, ◌+◌, ◌*◌, ◌≤◌, length};
ghost use Rattle.std.proofs.Math.Option.{some, none};
ghost use Rattle.pauli.specs.PlaceSet.{set_in};
ghost use Rattle.pauli.specs.Told.{answer};
ghost use Rattle.pauli.specs.Writing.{told_bytes, left_in};
ghost use Rattle.pauli_group.specs.Inner.Members.{factoring_told};
ghost use Rattle.factorizations.specs.Put.{Put};
ghost use Rattle.factorizations.specs.Records.{result_bytes, results_bytes};
ghost use Rattle.factorizations.specs.Stored.{results_in};
ghost use Rattle.pauli.specs.Refusals.{told_of};

use crate::stored::result_of;
use pauli::places::Places;
use pauli::refusal::{Reason, Refusal};
use pauli::write::put_u16;
use pauli_group::member::{IndexSet, put_indexes};

// ---- one record

fn record_length(res: Option<IndexSet>) -> usize
    ensures { (result ≡ length (result_bytes (factoring_told res))) × (result ≤ 260) }
{
    match res {
        None => 1,
        Some(found) => {
            let set = found.set;
            4 + 2 * set.weight()
        }
    }
}

fn put_other(out: &mut [u8], at: usize) -> usize
    requires { at + length (result_bytes none) ≤ length out.old }
    ensures { Put out.old at (result_bytes none) out.new result }
{
    out[at] = 0;
    at + 1
}

// The numbers of the index set are places in the list of generators.
fn put_member(out: &mut [u8], at: usize, set: Places, exponent: u8) -> usize
    requires { at + length (result_bytes (some (record { indexes = set_in set; exponent = exponent }))) ≤ length out.old }
    ensures { Put out.old at (result_bytes (some (record { indexes = set_in set; exponent = exponent }))) out.new result }
{
    let count = set.weight();
    out[at] = 1;
    out[at + 1] = exponent;
    put_u16(out, at + 2, count);
    put_indexes(out, at + 4, set);
    at + 4 + 2 * count
}

fn put_record(out: &mut [u8], at: usize, res: Option<IndexSet>) -> usize
    requires { at + length (result_bytes (factoring_told res)) ≤ length out.old }
    ensures { Put out.old at (result_bytes (factoring_told res)) out.new result }
{
    match res {
        None => put_other(out, at),
        Some(found) => put_member(out, at, found.set, found.exponent),
    }
}

// ---- the records of results, each of which is in five words

fn records_length(results: &[[u64; 5]]) -> usize
    requires { length results.now ≤ 128 }
    ensures { (result ≡ length (results_bytes (results_in results.now))) × (result ≤ 260 * length results.now) }
{
    let mut total = 0;
    for words in results {
        total += record_length(result_of(words));
    }
    total
}

fn put_records(out: &mut [u8], results: &[[u64; 5]]) -> usize
    requires { length (results_bytes (results_in results.now)) ≤ length out.old }
    ensures { Put out.old 0 (results_bytes (results_in results.now)) out.new result }
{
    let mut next = 0;
    for words in results {
        next = put_record(out, next, result_of(words));
    }
    next
}

// Writes the records, if the output has room for all.
pub(crate) fn write_records(results: &[[u64; 5]], out: &mut [u8]) -> Result<usize, Refusal>
    requires { length results.now ≤ 128 }
    ensures told { told_of result ≡ told_bytes (answer (results_bytes (results_in results.now))) out.old }
    ensures left { out.new ≡ left_in (answer (results_bytes (results_in results.now))) out.old }
{
    let size = records_length(results);
    if out.len() < size {
        return Err(Reason::Output.into());
    }
    put_records(out, results);
    Ok(size)
}
