// The words of a frame.
ghost use Rattle.std.specs.Prelude.{◌≡◌, ◌+◌, ◌*◌, ◌^◌, ◌<◌, ◌≤◌, ◌++◌, length, drop, slice_index};
ghost use Rattle.lb_lan.specs.Frames.{words_of};

use crate::queue::Queue;
use lb_word::word_of;

/// The most words of data that wait in the receive FIFO.
pub(crate) const MOST_FIFO_WORDS: usize = 4096;

// How many words the bytes take.
pub(crate) fn word_count(bytes: &[u8]) -> usize
    ensures count { result ≡ length (words_of bytes.now) }
    ensures small { result < 2 ^ 62 }
{
    (bytes.len() + 3) / 4
}

// Adds the words of the bytes behind the others.
pub(crate) fn push_words(queue: &mut Queue<u32, MOST_FIFO_WORDS>, bytes: &[u8])
    requires { length queue.old + length (words_of bytes.now) ≤ MOST_FIFO_WORDS }
    ensures words { queue.new ≡ queue.old ++ words_of bytes.now }
    ensures fits { length queue.new ≤ MOST_FIFO_WORDS }
{
    for n in 0..word_count(bytes) {
        queue.push(word_at(bytes, 4 * n));
    }
}

// The word at a place, where bytes past the end are 0.
fn word_at(bytes: &[u8], at: usize) -> u32
    requires { at ≤ 4 * MOST_FIFO_WORDS }
    ensures { result ≡ slice_index (words_of (drop at bytes.now)) 0 }
{
    word_of([
        byte_at(bytes, at),
        byte_at(bytes, at + 1),
        byte_at(bytes, at + 2),
        byte_at(bytes, at + 3),
    ])
}

// The byte at a place, 0 past the end.
fn byte_at(bytes: &[u8], at: usize) -> u8
    ensures { result ≡ slice_index bytes.now at }
{
    bytes.get(at).copied().unwrap_or(0)
}
