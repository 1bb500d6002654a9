// How many bits are set. Counting ones is dear where the processor has no instruction for it, so words are first added up bit by bit
// (Harley and Seal) and ones are counted in the few sums.
ghost use Rattle.std.specs.Prelude.{◌≡◌, ℕ, ◌+◌, ◌*◌, ◌≤◌, ◌<◌, length, get_or};
ghost use Rattle.definitions.specs.Sum.{sum};
ghost use Rattle.definitions.specs.Bitmap.{bit_of};
ghost use Rattle.laws.specs.bitmaps.Adders.{bits_apart};

// How many bits of a word are set.
pub(crate) fn ones_of(word: u64) -> u64
    ensures { (result ≡ sum 64 (bit_of word)) × (result ≤ 64) }
{
    u64::from(word.count_ones())
}

// Words added up bit by bit: a bit of `ones` counts 1, one of `twos` 2, one of `fours` 4.
#[derive(Clone, Copy)]
struct Twos {
    twos: u64,
    ones: u64,
}

#[derive(Clone, Copy)]
struct Fours {
    fours: u64,
    twos: u64,
    ones: u64,
}

// The carry-save adder of three words.
fn carry_save(a: u64, b: u64, c: u64) -> Twos
    ensures { (i : ℕ) → 2 * bit_of result.twos i + bit_of result.ones i ≡ bit_of a i + bit_of b i + bit_of c i }
{
    let odd = a ^ b;
    Twos {
        twos: (a & b) | (odd & c),
        ones: odd ^ c,
    }
}

fn add_seven(a: u64, b: u64, c: u64, d: u64, e: u64, f: u64, g: u64) -> Fours
    ensures { (i : ℕ) → 4 * bit_of result.fours i + 2 * bit_of result.twos i + bit_of result.ones i ≡ bit_of a i + bit_of b i + bit_of c i + bit_of d i + bit_of e i + bit_of f i + bit_of g i }
{
    let x = carry_save(a, b, c);
    let y = carry_save(d, e, f);
    let ones = carry_save(x.ones, y.ones, g);
    let twos = carry_save(x.twos, y.twos, ones.twos);
    Fours {
        fours: twos.twos,
        twos: twos.ones,
        ones: ones.ones,
    }
}

// How many bits are set in seven words. Counting ones is dear, so the words are added first and ones are counted in three.
pub(crate) fn ones_of_seven(a: u64, b: u64, c: u64, d: u64, e: u64, f: u64, g: u64) -> u64
    ensures { result ≡ sum 64 (bit_of a) + sum 64 (bit_of b) + sum 64 (bit_of c) + sum 64 (bit_of d) + sum 64 (bit_of e) + sum 64 (bit_of f) + sum 64 (bit_of g) }
{
    let sums = add_seven(a, b, c, d, e, f, g);
    ones_of(sums.ones) + 2 * ones_of(sums.twos) + 4 * ones_of(sums.fours)
}

// Seven words, `step` apart.
fn add_apart(words: &[u64], at: usize, step: usize) -> Fours
    requires { (at + 6 * step < length words.now) × (length words.now ≤ 1048576) }
    ensures { (i : ℕ) → 4 * bit_of result.fours i + 2 * bit_of result.twos i + bit_of result.ones i ≡ bits_apart 7 words.now at step i }
{
    add_seven(
        words[at],
        words[at + step],
        words[at + 2 * step],
        words[at + 3 * step],
        words[at + 4 * step],
        words[at + 5 * step],
        words[at + 6 * step],
    )
}

// How many bits are set in fifteen words, `step` apart. Once they are added up, four counts serve for all (Harley and Seal).
fn ones_of_fifteen(words: &[u64], at: usize, step: usize) -> u64
    requires { (at + 14 * step < length words.now) × (length words.now ≤ 1048576) }
    ensures { (result ≡ sum 15 (λ (j : ℕ). sum 64 (bit_of (get_or words.now (j * step + at) 0)))) × (result ≤ 960) }
{
    let a = add_apart(words, at, step);
    let b = add_apart(words, at + 7 * step, step);
    let ones = carry_save(a.ones, b.ones, words[at + 14 * step]);
    let twos = carry_save(a.twos, b.twos, ones.twos);
    let fours = carry_save(a.fours, b.fours, twos.twos);
    8 * ones_of(fours.twos) + 4 * ones_of(fours.ones) + 2 * ones_of(twos.ones) + ones_of(ones.ones)
}

// How many bits are set in all words: in fifteen parts of equal length at once, which LLVM makes vectors of, then in the few left.
// By number, since fifteen words that stand `step` apart are added at a time.
pub(crate) fn ones_in(words: &[u64]) -> u64
    requires { length words.now ≤ 1048576 }
    ensures { result ≡ sum (length words.now) (λ (k : ℕ). sum 64 (bit_of (get_or words.now k 0))) }
{
    let step = words.len() / 15;
    let mut set: u64 = 0;
    for at in 0..step {
        set += ones_of_fifteen(words, at, step);
    }
    for k in 15 * step..words.len() {
        set += ones_of(words[k]);
    }
    set
}
