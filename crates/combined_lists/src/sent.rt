// The letters and the depth of a line, by its bytes.
ghost use Rattle.std.specs.Prelude.{◌≡◌, ◌+◌, ◌^◌, ◌<◌};
ghost use Rattle.combined_lists.specs.Line.{depth_after, byte_sent, bytes_sent, deepest};
ghost use Rattle.combined_lists.specs.LineCall.{rolls_in, sent_of};

// Whether byte b is no letter, or one whose roll was sent.
fn is_sent(b: u8, rolls: &[&[u8]; 4]) -> bool
    ensures { result ≡ byte_sent (sent_of (rolls_in rolls.now)) b }
{
    match b {
        b'A'..=b'D' => !rolls[(b - b'A') as usize].is_empty(),
        _ => true,
    }
}

// Whether the roll of each letter was sent.
pub(crate) fn all_sent(line: &[u8], rolls: &[&[u8]; 4]) -> bool
    ensures { result ≡ bytes_sent (sent_of (rolls_in rolls.now)) line.now }
{
    line.iter().all(|b| is_sent(*b, rolls))
}

// How many parentheses are open after byte b, where `depth` were open before it.
fn depth_after(depth: usize, b: u8) -> usize
    requires { depth + 1 < 2 ^ 64 }
    ensures { result ≡ depth_after depth b }
{
    match b {
        b'(' => depth + 1,
        b')' => depth.saturating_sub(1),
        _ => depth,
    }
}

// How deep parentheses go.
pub(crate) fn deepest(line: &[u8]) -> usize
    ensures { result ≡ deepest 0 line.now }
{
    let mut depth: usize = 0;
    let mut most: usize = 0;
    for b in line {
        depth = depth_after(depth, *b);
        most = most.max(depth);
    }
    most
}
