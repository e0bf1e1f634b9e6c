// The words of a byte stream, as programs read them.
ghost use Rattle.std.specs.Prelude.{◌≡◌, take, map, IfOk};
ghost use Rattle.std.specs.Int.{w32, from_le_bytes};
ghost use Rattle.book.specs.Bytes.{words_in};

use std::alloc::{AllocError, Global};

// As many words as a full book has, and one record more, so that a longer book is seen to be refused.
pub const WORD_LIMIT: usize = 8194;

// The first 8,194 words of the bytes.
pub fn words_of(heap: Global, bytes: &[u8]) -> Result<Vec<u32>, AllocError>
    ensures { IfOk result (λ v. v.items ≡ take 8194 (words_in bytes.now)) }
{
    let (quads, _) = bytes.as_chunks::<4>();
    first_words(heap, quads)
}

// The words of the first 8,194 quads of bytes.
fn first_words(heap: Global, quads: &[[u8; 4]]) -> Result<Vec<u32>, AllocError>
    ensures { IfOk result (λ v. v.items ≡ map (from_le_bytes w32) (take 8194 quads.now)) }
{
    quads
        .iter()
        .take(WORD_LIMIT)
        .map(|quad| u32::from_le_bytes(*quad))
        .collect(heap)
}
