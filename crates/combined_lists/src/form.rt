// The form of a line: four levels that call each other. Each gives the bytes that follow it, or `None` where the line does not begin
// with it.
ghost use Rattle.std.specs.Prelude.{◌≡◌, option_copied};
ghost use Rattle.combined_lists.specs.Line.{Sign, quotient, common, joined};
ghost use Rattle.combined_lists.specs.Reader.{atom, level, after};
ghost use Rattle.combined_lists.specs.Inner.Ends.{rest_after};

// What follows byte b, where it stands first.
pub(crate) fn after(line: &[u8], b: u8) -> Option<&[u8]>
    ensures { option_copied result ≡ after b line.now }
{
    match line {
        [first, rest @ ..] if *first == b => Some(rest),
        _ => None,
    }
}

// or-level: and-level { '|' and-level }
#[cycle(levels)]
pub(crate) fn or_level(line: &[u8]) -> Option<&[u8]>
    ensures { option_copied result ≡ rest_after (level joined) line.now }
{
    let mut rest = and_level(line)?;
    while let Some(right) = after(rest, b'|') {
        rest = and_level(right)?;
    }
    Some(rest)
}

// and-level: quotient-level { '&' quotient-level }
#[cycle(levels)]
fn and_level(line: &[u8]) -> Option<&[u8]>
    ensures { option_copied result ≡ rest_after (level common) line.now }
{
    let mut rest = quotient_level(line)?;
    while let Some(right) = after(rest, b'&') {
        rest = quotient_level(right)?;
    }
    Some(rest)
}

// quotient-level: atom { '/' atom }
#[cycle(levels)]
fn quotient_level(line: &[u8]) -> Option<&[u8]>
    ensures { option_copied result ≡ rest_after (level quotient) line.now }
{
    let mut rest = atom(line)?;
    while let Some(right) = after(rest, b'/') {
        rest = atom(right)?;
    }
    Some(rest)
}

// atom: 'A' .. 'D', or '(' or-level ')'
#[cycle(levels)]
fn atom(line: &[u8]) -> Option<&[u8]>
    ensures { option_copied result ≡ rest_after atom line.now }
{
    if let Some(inner) = after(line, b'(') {
        return after(or_level(inner)?, b')');
    }
    match line {
        [b'A'..=b'D', rest @ ..] => Some(rest),
        _ => None,
    }
}
