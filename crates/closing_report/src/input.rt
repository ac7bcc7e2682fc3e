// The two rolls of an input.
ghost use Rattle.std.specs.Prelude.{◌≡◌, length};
ghost use Rattle.closing_report.specs.InputRolls.{rolls_in};
ghost use Rattle.closing_report.specs.Split.{rolls_told, SplitWithin};

use pauli::bytes::u32_at;

// An input of more bytes is refused.
pub const MOST_INPUT: usize = 65536;

// The byte at which the element roll starts; none where the generator roll, from byte 4 on, is not whole.
pub(crate) fn split_input(input: &[u8]) -> Option<usize>
    ensures rolls { rolls_told input.now result ≡ rolls_in input.now }
    ensures within { SplitWithin (length input.now) result }
{
    let n = input.len();
    if n > MOST_INPUT {
        return None;
    }
    if n < 4 {
        return None;
    }
    let end = 4 + (u32_at(input, 0) as usize);
    if n < end {
        return None;
    }
    Some(end)
}
