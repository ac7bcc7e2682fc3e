// The calls on one list. Each lends a work area.
ghost use Rattle.std.specs.Prelude.{length};
ghost use Rattle.pauli_group.specs.Calls.{one_list, standard_generators, rank_call, phases_call, abelian_call, stabilizer_call, size_call, question, factorization_call, symplectic_call, elements_call};
ghost use Rattle.factorizations.specs.Calls.{questions, factorizations_call};
ghost use Rattle.capi.specs.Code.{code_number, code_phases};
ghost use Rattle.pauli_group.specs.Promises.{promise_numbered};
ghost use Rattle.capi.specs.CallContracts.{Telling, Listing, Factoring, FactoringAll};

use crate::answer::{Answer, code_decided, code_member, code_number, code_phases, code_results};
use factorizations::calls::indexed_factorizations_of;
use pauli_group::calls::{
    is_abelian, is_stabilizer_group, log2_size, phases, rank, standard_generators,
};
use pauli_group::factorization::indexed_factorization_of;
use pauli_group::listing::elements;
use pauli_group::promise::Promise;
use pauli_group::symplectic::symplectic_form_of;

#[unsafe(no_mangle)]
pub extern "C" fn howhiruke_standard_generators(
    roll: &[u8],
    work: &mut [u64],
    out: &mut [u8],
) -> Answer
    ensures { Listing (standard_generators roll.now (length work.old)) (one_list roll.now (length work.old)) work.old out.old result work.new out.new }
{
    let wrote = standard_generators(roll, work, out);
    code_number(wrote)
}

#[unsafe(no_mangle)]
pub extern "C" fn howhiruke_rank(roll: &[u8], work: &mut [u64]) -> Answer
    ensures { Telling (code_number (rank_call roll.now (length work.old))) (one_list roll.now (length work.old)) work.old result work.new }
{
    let found = rank(roll, work);
    code_number(found)
}

// How many phases the group has: 1, 2 or 4.
#[unsafe(no_mangle)]
pub extern "C" fn howhiruke_phases(roll: &[u8], promise: u64, work: &mut [u64]) -> Answer
    ensures { Telling (code_phases (phases_call (promise_numbered promise) roll.now (length work.old))) (one_list roll.now (length work.old)) work.old result work.new }
{
    let promised = Promise::from(promise);
    let found = phases(roll, promised, work);
    code_phases(found)
}

#[unsafe(no_mangle)]
pub extern "C" fn howhiruke_is_abelian(roll: &[u8], promise: u64, work: &mut [u64]) -> Answer
    ensures { Telling (code_number (abelian_call (promise_numbered promise) roll.now (length work.old))) (one_list roll.now (length work.old)) work.old result work.new }
{
    let promised = Promise::from(promise);
    let decided = is_abelian(roll, promised, work);
    code_decided(decided)
}

#[unsafe(no_mangle)]
pub extern "C" fn howhiruke_is_stabilizer_group(
    roll: &[u8],
    promise: u64,
    work: &mut [u64],
) -> Answer
    ensures { Telling (code_number (stabilizer_call (promise_numbered promise) roll.now (length work.old))) (one_list roll.now (length work.old)) work.old result work.new }
{
    let promised = Promise::from(promise);
    let decided = is_stabilizer_group(roll, promised, work);
    code_decided(decided)
}

#[unsafe(no_mangle)]
pub extern "C" fn howhiruke_log2_size(roll: &[u8], promise: u64, work: &mut [u64]) -> Answer
    ensures { Telling (code_number (size_call (promise_numbered promise) roll.now (length work.old))) (one_list roll.now (length work.old)) work.old result work.new }
{
    let promised = Promise::from(promise);
    let found = log2_size(roll, promised, work);
    code_number(found)
}

// Whether Pauli `number` of the element roll is in the group; the indexes of its factors go to the output.
#[unsafe(no_mangle)]
pub extern "C" fn howhiruke_indexed_factorization_of(
    generators: &[u8],
    elements: &[u8],
    number: usize,
    promise: u64,
    work: &mut [u64],
    out: &mut [u8],
) -> Answer
    ensures { Factoring (factorization_call (promise_numbered promise) generators.now elements.now number (length work.old)) (question generators.now elements.now number (length work.old)) work.old out.old result work.new out.new }
{
    let promised = Promise::from(promise);
    let found = indexed_factorization_of(generators, elements, number, promised, work, out);
    code_member(found)
}

// Membership of every Pauli of the element roll; a record of each goes to the output.
#[unsafe(no_mangle)]
pub extern "C" fn howhiruke_indexed_factorizations_of(
    generators: &[u8],
    elements: &[u8],
    promise: u64,
    work: &mut [u64],
    out: &mut [u8],
) -> Answer
    ensures { FactoringAll (factorizations_call (promise_numbered promise) generators.now elements.now (length work.old)) (questions generators.now elements.now (length work.old)) work.old out.old result work.new out.new }
{
    let promised = Promise::from(promise);
    let found = indexed_factorizations_of(generators, elements, promised, work, out);
    code_results(found)
}

// Writes a page of the group's elements.
#[unsafe(no_mangle)]
pub extern "C" fn howhiruke_elements(
    roll: &[u8],
    promise: u64,
    start: u32,
    count: u32,
    work: &mut [u64],
    out: &mut [u8],
) -> Answer
    ensures { Listing (elements_call (promise_numbered promise) start count roll.now (length work.old)) (one_list roll.now (length work.old)) work.old out.old result work.new out.new }
{
    let promised = Promise::from(promise);
    let wrote = elements(roll, promised, start, count, work, out);
    code_number(wrote)
}

#[unsafe(no_mangle)]
pub extern "C" fn howhiruke_symplectic_form_of(
    roll: &[u8],
    work: &mut [u64],
    out: &mut [u8],
) -> Answer
    ensures { Listing (symplectic_call roll.now (length work.old)) (one_list roll.now (length work.old)) work.old out.old result work.new out.new }
{
    let wrote = symplectic_form_of(roll, work, out);
    code_number(wrote)
}
