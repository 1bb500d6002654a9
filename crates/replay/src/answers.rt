// Answers of calls held against the end of a line, and what the calls on two frames and on stacks share.
ghost use Rattle.std.specs.Prelude.{◌≡◌, ◌∷◌, ◌%◌, map, length, get_or};
ghost use Rattle.std.specs.Bool.{Decides};
ghost use Rattle.std.proofs.lemmas.List.Edits.{sets};
ghost use Rattle.replay.specs.Answers.{refusal_line, BytesAnswer, PastMarked, mode_at};

use super::{Number, at, marked, same};
use mtb_align::align::Options;
use mtb_align::error::Error;
use mtb_align::shrink::Shrink;

/// How a frame is halved: 1 for `Subsample`, and else `Average`.
// By a number, as the vectors have it.
pub fn mode(subsampled: usize) -> Shrink
    ensures { result ≡ mode_at subsampled }
{
    match subsampled {
        1 => Shrink::Subsample,
        _ => Shrink::Average,
    }
}

/// The low 32 bits.
// By `%`, here and in `byte`: a cast may lose no bits, and `try_from` would refuse what is cut.
pub fn bits32(n: usize) -> u32
    ensures { result ≡ n % 4294967296 }
{
    (n % 4294967296) as u32
}

/// The low 8 bits.
pub fn byte(n: usize) -> u8
    ensures { result ≡ n % 256 }
{
    (n % 256) as u8
}

/// The options that the numbers begin with.
pub fn options(numbers: &[u64]) -> Options
    ensures bits_value { result.bits ≡ get_or numbers.now 0 0 % 4294967296 }
    ensures tolerance_value { result.tolerance ≡ get_or numbers.now 1 0 % 256 }
    ensures shrink_value { result.shrink ≡ mode_at (get_or numbers.now 2 0) }
{
    Options {
        bits: bits32(at(numbers, 0)),
        tolerance: byte(at(numbers, 1)),
        shrink: mode(at(numbers, 2)),
    }
}

/// Sizes as words, stored as far as both lists reach.
pub fn words_of(sizes: &[usize], out: &mut [u64])
    ensures { out.new ≡ sets out.old 0 sizes.now }
{
    for i in 0..out.len().min(sizes.len()) {
        out[i] = sizes[i] as u64;
    }
}

/// Whether the numbers are a refusal: its number, and its values behind their count.
pub fn refusal_agrees(numbers: &[u64], e: Error) -> bool
    ensures { Decides result (numbers.now ≡ refusal_line e) }
{
    let number = u64::from(e.number());
    match e {
        Error::SizeMismatch(r, t) => same(
            numbers,
            &[
                number,
                4,
                r.width as u64,
                r.height as u64,
                t.width as u64,
                t.height as u64,
            ],
        ),
        Error::FrameMismatch(n, t, k) => same(
            numbers,
            &[
                number,
                5,
                n.width as u64,
                n.height as u64,
                t.width as u64,
                t.height as u64,
                k as u64,
            ],
        ),
        Error::NoSuchReference(r, n) => same(numbers, &[number, 2, r as u64, n as u64]),
        Error::Records(needed) => same(numbers, &[number, 1, needed as u64]),
        _ => same(numbers, &[number, 0]),
    }
}

/// Whether the numbers are 0, how many entries there are, and the entries.
pub fn listed<T: Number>(numbers: &[u64], got: &[T]) -> bool
    ensures { Decides result (numbers.now ≡ 0 ∷ length got.now ∷ map T.number got.now) }
{
    match numbers {
        [0, n, entries @ ..] => *n == got.len() as u64 && same(entries, got),
        _ => false,
    }
}

/// Whether the numbers are the answer of a call that writes these bytes, which have the mark where it is refused.
#[tactic(auto, using(crate::proofs::Entries::themselves))]
pub fn bytes_agree(numbers: &[u64], answer: Result<(), Error>, got: &[u8]) -> bool
    ensures { Decides result (BytesAnswer numbers.now answer got.now) }
{
    match answer {
        Ok(()) => listed(numbers, got),
        Err(e) => refusal_agrees(numbers, e) && marked(got),
    }
}

/// Whether scratch keeps the mark but for as many bytes and words at the start of it as the numbers begin with.
pub fn past_marked(numbers: &[u64], bytes: &[u8], words: &[u64]) -> bool
    ensures { Decides result (PastMarked numbers.now bytes.now words.now) }
{
    let free = at(numbers, 0);
    if free > bytes.len() {
        return false;
    }
    let free_words = at(numbers, 1);
    if free_words > words.len() {
        return false;
    }
    marked(&bytes[free..]) && marked(&words[free_words..])
}
