// Standard input, as far as a book can need it.
ghost use Rattle.std.specs.Prelude.{◌≡◌, take, IfOk, IfSome};
ghost use Rattle.std.specs.Option.{option_map};

use book::input::WORD_LIMIT;
use std::alloc::Global;
use std::io;
use std::io::Read;

const BYTE_LIMIT: u64 = 4 * WORD_LIMIT as u64;

// Reads until the end, or until there are enough bytes for all the words that count.
pub fn standard_input(rt: &HostRuntime) -> io::Result<Vec<u8>> {
    bytes_that_count(rt.alloc(), rt.stdin())
}

// The same of any reader: as many bytes as are left, at most those of all the words that count.
fn bytes_that_count<R: Read + Drop>(heap: Global, reader: R) -> io::Result<Vec<u8>>
    ensures { IfOk result (λ v. IfSome (option_map (take BYTE_LIMIT) (R.Read.remaining reader)) (λ bytes. v.items ≡ bytes)) }
{
    let mut bytes = Vec::new(heap);
    reader.take(BYTE_LIMIT).read_to_end(&mut bytes)?;
    Ok(bytes)
}
