//! The parts of a probe's line.

ghost use Rattle.std.specs.Prelude.{◌≡◌, ◌++◌, ◌∷◌, OnOk, pos};
ghost use Rattle.probe.specs.States.{next_count};

use itoa::{Buffer, Integer};
use octant_code::OutOfMemory;

/// The greatest count of frames, and the greatest sum of costs.
const MOST_COUNT: u64 = 1 << 63;

// A count or a sum that goes on, to at most 2^63.
pub fn next_count(n: u64, more: u64) -> u64
    ensures { pos result ≡ next_count (pos n) more }
{
    n.saturating_add(more).min(MOST_COUNT)
}

// Puts bytes behind others.
fn put(out: &mut Vec<u8>, bytes: &[u8]) -> Result<(), OutOfMemory>
    ensures { OnOk result (out.new.items ≡ out.old.items ++ bytes.now) }
{
    match out.extend_from_slice(bytes) {
        Ok(()) => Ok(()),
        Err(_) => Err(OutOfMemory),
    }
}

// Puts a word, a space and a number in decimal.
pub fn put_named<I: Integer>(out: &mut Vec<u8>, word: &[u8], number: I) -> Result<(), OutOfMemory>
    ensures { OnOk result (out.new.items ≡ out.old.items ++ (word.now ++ 32 ∷ I.text number)) }
{
    put(out, word)?;
    put(out, b" ")?;
    let mut digits = Buffer::new();
    put(out, digits.format(number).as_bytes())
}
