// The call for the size of a page.
ghost use Rattle.std.specs.Prelude.{◌≡◌, ◌-◌, ◌*◌, ◌/◌, ◌^◌, ◌≤◌, ◌<◌, min, nat_lt};
ghost use Rattle.pauli.specs.Told.{answer, refuse_if};
ghost use Rattle.pauli_theory.specs.Listing.{page_size};
ghost use Rattle.pauli_group.specs.Calls.{most_listed};
ghost use Rattle.pauli_group.specs.Promises.{promise_of};
ghost use Rattle.pauli_group.specs.Inner.Lists.{step_told};
ghost use Rattle.sizes.specs.SizeContracts.{PageSizeCall};
ghost use Rattle.pauli.specs.Refusals.{told_of};

use pauli::refusal::{Reason, Refusal};
use pauli_group::answers::Phases;
use pauli_group::calls::describe_list;
use pauli_group::listing::{MOST_LISTED, page_elements};
use pauli_group::promise::Promise;

// How many elements a page holds of a group of this rank and these phases.
fn page_of(rank: usize, phases: Phases, start: u32, count: u32) -> Result<usize, Refusal>
    ensures { told_of result ≡ refuse_if (nat_lt most_listed rank) 10 0 (answer (min (page_size count) (2 ^ rank * (4 / step_told phases) - start))) }
{
    if rank > MOST_LISTED {
        return Err(Reason::Listing.into());
    }
    Ok(page_elements(rank, phases.step(), start, count))
}

// How many elements a page of the listing of a list's group holds.
pub fn page_size(
    b: &[u8],
    promise: Promise,
    start: u32,
    count: u32,
    work: &mut [u64],
) -> Result<usize, Refusal>
    ensures { PageSizeCall (promise_of promise) start count b.now work.old result work.new }
{
    let d = describe_list(b, promise, work)?;
    page_of(d.rank, d.signs.phases, start, count)
}
