// A file's bytes as text: two lower-case hexadecimal digits each.
ghost use Rattle.std.specs.Prelude.{◌≡◌, ℕ, ◌+◌, ◌*◌, ◌/◌, ◌≤◌, length};
ghost use Rattle.text.specs.Put.{Put};
ghost use Rattle.text.specs.Words.{words_from, taken};
ghost use Rattle.text.specs.Hex.{pairs_in, bytes_in, sized, bytes_up_to, bytes_text, sized_at, bytes_at};

use crate::read::bits_in;
use crate::words::{Next, same, word_end};
use crate::write::put_digits;

// The bytes of a word, into the front of the slice; how many they are.
fn pairs_in(word: &[u8], bytes: &mut [u8]) -> Option<u64>
    requires { length word.now / 2 ≤ length bytes.old }
    ensures { sized_at bytes.new result ≡ sized (pairs_in word.now) }
{
    let n = word.len() / 2;
    for i in 0..n {
        let from = 2 * i;
        let value = bits_in(&word[from..from + 2], 2)?;
        bytes[i] = value as u8;
    }
    if word.len() != 2 * n {
        return None;
    }
    Some(n as u64)
}

// The same, and `-` for none.
pub fn bytes_in(word: &[u8], bytes: &mut [u8]) -> Option<u64>
    requires { length word.now / 2 ≤ length bytes.old }
    ensures { sized_at bytes.new result ≡ sized (bytes_in word.now) }
{
    if word.is_empty() {
        return None;
    }
    if same(word, b"-") {
        return Some(0);
    }
    pairs_in(word, bytes)
}

// A word of up to `most` bytes, these into the front of the slice.
pub fn next_bytes(line: &[u8], at: usize, most: usize, bytes: &mut [u8]) -> Option<Next<u64>>
    requires { most ≤ length bytes.old }
    ensures { bytes_at line.now bytes.new result ≡ taken (bytes_up_to most) (words_from line.now at) }
{
    if line.len() < at {
        return None;
    }
    let to = word_end(line, at);
    if most < (to - at) / 2 {
        return None;
    }
    let value = bytes_in(&line[at..to], bytes)?;
    Some(Next {
        value,
        next: to + 1,
    })
}

// Bytes written, one behind the other.
pub fn put_bytes(out: &mut [u8], at: usize, bytes: &[u8]) -> usize
    requires { at + 2 * length bytes.now ≤ length out.old }
    ensures { Put out.old at (bytes_text bytes.now) out.new result }
{
    let mut next = at;
    for b in bytes {
        next = put_digits(out, next, *b as u64, 16, 2);
    }
    next
}
