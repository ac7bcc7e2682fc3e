// Texts and decimal numbers, put into an output. Each function that puts something returns the byte past it.
ghost use Rattle.std.specs.Prelude.{◌≡◌, ◌+◌, ◌≤◌, length};
ghost use Rattle.factorizations.specs.Put.{Put};
ghost use Rattle.closing_report.specs.Decimal.{digits};
ghost use Rattle.closing_report.specs.Lines.{labelled};

use itoa::Buffer;
use pauli::write::put_slice;

// How many decimal digits a number has.
pub(crate) fn number_length(n: usize) -> usize
    ensures { (result ≡ length (digits n)) × (result ≤ 20) }
{
    Buffer::new().format(n).len()
}

pub(crate) fn put_text(out: &mut [u8], at: usize, text: &[u8]) -> usize
    requires { at + length text.now ≤ length out.old }
    ensures { Put out.old at text.now out.new result }
{
    put_slice(out, at, text);
    at + text.len()
}

// Puts the decimal digits of a number.
pub(crate) fn put_number(out: &mut [u8], at: usize, n: usize) -> usize
    requires { at + length (digits n) ≤ length out.old }
    ensures { Put out.old at (digits n) out.new result }
{
    put_text(out, at, Buffer::new().format(n).as_bytes())
}

// Puts a label and a number behind it.
pub(crate) fn put_labelled(out: &mut [u8], at: usize, label: &[u8], n: usize) -> usize
    requires { at + length (labelled label.now n) ≤ length out.old }
    ensures { Put out.old at (labelled label.now n) out.new result }
{
    let next = put_text(out, at, label);
    put_number(out, next, n)
}
