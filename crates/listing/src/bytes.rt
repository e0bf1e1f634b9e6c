// Numbers and text in a table of bytes that is lent. The caller sees to the room; each call returns the place behind what it wrote.
ghost use Rattle.std.specs.Prelude.{◌≡◌, ◌+◌, ◌≤◌, length, decimal};
ghost use Rattle.listing.specs.Answers.{written_at};

use itoa::write_digits;

// How many digits a number has.
pub(crate) fn digits(n: u64) -> usize
    ensures count { result ≡ length (decimal n) }
    ensures few { result ≤ 20 }
{
    if n < 10 {
        return 1;
    }
    digits(n / 10) + 1
}

#[tactic(auto, using(crate::proofs::Writes::digits_written))]
pub(crate) fn put_number(out: &mut [u8], at: usize, n: u64) -> usize
    requires { at + length (decimal n) ≤ length out.old }
    ensures end { result ≡ at + length (decimal n) }
    ensures table { out.new ≡ written_at at (decimal n) out.old }
{
    let end = at + digits(n);
    write_digits(n, out, end);
    end
}

#[tactic(auto, using(crate::proofs::Writes::copy_written))]
pub(crate) fn put_text(out: &mut [u8], at: usize, text: &[u8]) -> usize
    requires { at + length text.now ≤ length out.old }
    ensures end { result ≡ at + length text.now }
    ensures table { out.new ≡ written_at at text.now out.old }
{
    let end = at + text.len();
    out[at..end].copy_from_slice(text);
    end
}
