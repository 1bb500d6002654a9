// Words of the reference against words of the target: one, seven at a time, and runs of them. What the target shows is a type, so that
// each has loops of its own: one for whole words and neighbours cost 6 to 90 % of the speed. The loops add up where they stand:
// `i + k * step` in its place cost 3 to 7 % of counts of whole words.
// rt and re are the reference's threshold and exclusion bitmap, st and se the target's, which is the source of what is shown. They travel
// as four: one struct of them, by reference or by value, with ghost fields for `Alike`, proved too, but cost 0.7 to 5.6 % of a
// count on 64 by 64 (289, 325, 36 cycles against 291, 334, 38).
ghost use Rattle.std.specs.Prelude.{◌≡◌, ℕ, List, ◌+◌, ◌*◌, ◌/◌, ◌%◌, ◌^◌, ◌≤◌, ◌<◌, length};
ghost use Rattle.std.specs.Int.Bits.{bit_or};
ghost use Rattle.laws.specs.bitmaps.Joints.{Alike, Reaches, LinesReach, Counted, Showing, spanned, edged, run_sum, lines_sum};
ghost use Rattle.laws.specs.bitmaps.Moved.{part};

use super::bitmap::WORD_BITS;
use super::difference::Counts;
use super::ones::{ones_of, ones_of_seven};

// The word that starts `down` columns up in `lo`, with `hi` the word after it; `up` is what is left of 64. Were it made here, LLVM would
// make one instruction of both shifts, which takes longer.
fn funnelled(lo: u64, hi: u64, down: usize, up: usize) -> u64
    requires { (down < 64) × (up < 64) }
    ensures { result ≡ bit_or (lo / 2 ^ down) ((hi * 2 ^ up) % 2 ^ 64) }
{
    (lo >> down) | (hi << up)
}

// What is left of a word that is shifted down and then up.
fn part_of(word: u64, down: usize, up: usize) -> u64
    requires { (down < 64) × (up < 64) }
    ensures { result ≡ part word down up }
{
    (word >> down) << up
}

// The pixels of a word of the reference that are compared, and those of them that disagree.
#[derive(Clone, Copy)]
pub(crate) struct Shown {
    both: u64,
    odd: u64,
}

// What a word of the reference is held against: a word of the target, or what its words show moved by some columns.
pub(crate) trait View: Copy {
    // The word that is made of a bitmap's words from some place on.
    ghost shown: { Self → List ℕ → ℕ → ℕ };

    // How many words after the one at that place are read.
    ghost more: { ℕ };

    // Word `at` of the reference against the target from word `from` on.
    fn word(self, rt: &[u64], re: &[u64], st: &[u64], se: &[u64], at: usize, from: usize) -> Shown
        requires { Alike rt.now re.now st.now se.now × (at < length re.now) × (from + more < length re.now) }
        ensures { Showing (shown self) rt.now re.now st.now se.now at from result.both result.odd };
}

// A word of the target whole.
#[derive(Clone, Copy)]
pub(crate) struct Whole;

impl View for Whole {
    ghost shown = { λ _. spanned 0 };

    ghost more = { 0 };

    fn word(self, rt: &[u64], re: &[u64], st: &[u64], se: &[u64], at: usize, from: usize) -> Shown {
        let both = re[at] & se[from];
        let odd = (rt[at] ^ st[from]) & both;
        Shown { both, odd }
    }
}

// Two neighbours, of which the first is read from column `bit` on.
#[derive(Clone, Copy)]
pub(crate) struct Spanned {
    pub(crate) bit: usize,
    pub(crate) ghost some: { 0 < bit },
    pub(crate) ghost inside: { bit < 64 },
}

impl View for Spanned {
    ghost shown = { λ it. spanned it.bit };

    ghost more = { 1 };

    fn word(self, rt: &[u64], re: &[u64], st: &[u64], se: &[u64], at: usize, from: usize) -> Shown {
        let next = from + 1;
        let down = self.bit;
        let up = WORD_BITS - down;
        let both = re[at] & funnelled(se[from], se[next], down, up);
        let odd = (rt[at] ^ funnelled(st[from], st[next], down, up)) & both;
        Shown { both, odd }
    }
}

// At an edge of the row, what is left of one word that is shifted down and then up.
#[derive(Clone, Copy)]
pub(crate) struct Edged {
    pub(crate) down: usize,
    pub(crate) up: usize,
    pub(crate) ghost down_inside: { down < 64 },
    pub(crate) ghost up_inside: { up < 64 },
}

impl View for Edged {
    ghost shown = { λ it. edged it.down it.up };

    ghost more = { 0 };

    fn word(self, rt: &[u64], re: &[u64], st: &[u64], se: &[u64], at: usize, from: usize) -> Shown {
        let both = re[at] & part_of(se[from], self.down, self.up);
        let odd = (rt[at] ^ part_of(st[from], self.down, self.up)) & both;
        Shown { both, odd }
    }
}

// Both counts of `len` words, `step` apart, from word i of the reference and word j of the target on.
pub(crate) fn run<V: View>(
    view: V,
    rt: &[u64],
    re: &[u64],
    st: &[u64],
    se: &[u64],
    i: usize,
    j: usize,
    step: usize,
    len: usize,
) -> Counts
    requires { Alike rt.now re.now st.now se.now × Reaches (length re.now) V.more i j step len × (step ≤ 8192) × (len ≤ 1048576) }
    ensures { Counted (run_sum (V.shown view) rt.now re.now st.now se.now i j step len) (len * 64) result.compared result.disagreeing }
{
    let mut compared: u64 = 0;
    let mut disagreeing: u64 = 0;
    let mut at = i;
    let mut from = j;
    for _ in 0..len {
        let shown = view.word(rt, re, st, se, at, from);
        compared += ones_of(shown.both);
        disagreeing += ones_of(shown.odd);
        at += step;
        from += step;
    }
    Counts {
        disagreeing,
        compared,
    }
}

// Both counts of seven words, `apart` from one to the next.
fn seven<V: View>(
    view: V,
    rt: &[u64],
    re: &[u64],
    st: &[u64],
    se: &[u64],
    at: usize,
    from: usize,
    apart: usize,
) -> Counts
    requires { Alike rt.now re.now st.now se.now × Reaches (length re.now) V.more at from apart 7 }
    ensures { Counted (run_sum (V.shown view) rt.now re.now st.now se.now at from apart 7) 448 result.compared result.disagreeing }
{
    let a = view.word(rt, re, st, se, at, from);
    let b = view.word(rt, re, st, se, at + apart, from + apart);
    let c = view.word(rt, re, st, se, at + 2 * apart, from + 2 * apart);
    let d = view.word(rt, re, st, se, at + 3 * apart, from + 3 * apart);
    let e = view.word(rt, re, st, se, at + 4 * apart, from + 4 * apart);
    let f = view.word(rt, re, st, se, at + 5 * apart, from + 5 * apart);
    let g = view.word(rt, re, st, se, at + 6 * apart, from + 6 * apart);
    Counts {
        disagreeing: ones_of_seven(a.odd, b.odd, c.odd, d.odd, e.odd, f.odd, g.odd),
        compared: ones_of_seven(a.both, b.both, c.both, d.both, e.both, f.both, g.both),
    }
}

// Both counts of seven runs of `len` words, `apart` from one to the next, seven words at a time.
pub(crate) fn sevens<V: View>(
    view: V,
    rt: &[u64],
    re: &[u64],
    st: &[u64],
    se: &[u64],
    i: usize,
    j: usize,
    apart: usize,
    len: usize,
) -> Counts
    requires { Alike rt.now re.now st.now se.now × LinesReach (length re.now) V.more i j apart 1 7 len × (len ≤ 1048576) }
    ensures { Counted (lines_sum (V.shown view) rt.now re.now st.now se.now i j apart 1 7 len) (len * 448) result.compared result.disagreeing }
{
    let mut compared: u64 = 0;
    let mut disagreeing: u64 = 0;
    let mut at = i;
    let mut from = j;
    for _ in 0..len {
        let c = seven(view, rt, re, st, se, at, from, apart);
        compared += c.compared;
        disagreeing += c.disagreeing;
        at += 1;
        from += 1;
    }
    Counts {
        disagreeing,
        compared,
    }
}
