// Rectangles of words of the reference against those of the target, which are all that rows at a shift have in common.
// Four slices travel apart and places are added up, for the reasons at the head of words.rt; `n ≤ 128` and `rows ≤ 8192` are bounds of single
// numbers, of another rectangle at each call.
ghost use Rattle.std.specs.Prelude.{◌≡◌, ◌+◌, ◌*◌, ◌≤◌, ◌<◌, min, length};
ghost use Rattle.laws.specs.bitmaps.Joints.{Alike, Reaches, LinesReach, Counted, spanned, edged, run_sum, lines_sum};
ghost use Rattle.laws.specs.bitmaps.MovedRows.{moved_rows};

use super::bitmap::WORD_BITS;
use super::difference::Counts;
use super::words::{Edged, Spanned, View, Whole, run, sevens};

// Two counts together.
fn together(a: Counts, b: Counts) -> Counts
    requires { (a.compared ≤ 4294967296) × (a.disagreeing ≤ 4294967296) × (b.compared ≤ 4294967296) × (b.disagreeing ≤ 4294967296) }
    ensures { (result.compared ≡ a.compared + b.compared) × (result.disagreeing ≡ a.disagreeing + b.disagreeing) }
{
    Counts {
        disagreeing: a.disagreeing + b.disagreeing,
        compared: a.compared + b.compared,
    }
}

// Both counts of words that follow each other: seven runs of a seventh, and the words that are left.
fn flat(rt: &[u64], re: &[u64], st: &[u64], se: &[u64], i: usize, j: usize, len: usize) -> Counts
    requires { Alike rt.now re.now st.now se.now × (i + len ≤ length re.now) × (j + len ≤ length re.now) }
    ensures { Counted (run_sum (spanned 0) rt.now re.now st.now se.now i j 1 len) (len * 64) result.compared result.disagreeing }
{
    let seventh = len / 7;
    let most = sevens(Whole, rt, re, st, se, i, j, seventh, seventh);
    let rest = run(
        Whole,
        rt,
        re,
        st,
        se,
        i + 7 * seventh,
        j + 7 * seventh,
        1,
        len % 7,
    );
    together(most, rest)
}

// Both counts of a run at an edge. In a frame of one word a row the words follow each other; LLVM has to see that step as 1 to read them
// by vectors.
fn edge_column(
    edge: Edged,
    rt: &[u64],
    re: &[u64],
    st: &[u64],
    se: &[u64],
    i: usize,
    j: usize,
    step: usize,
    len: usize,
) -> Counts
    requires { Alike rt.now re.now st.now se.now × Reaches (length re.now) 0 i j step len × (step ≤ 8192) × (len ≤ 8192) }
    ensures { Counted (run_sum (edged edge.down edge.up) rt.now re.now st.now se.now i j step len) (len * 64) result.compared result.disagreeing }
{
    if step == 1 {
        return run(edge, rt, re, st, se, i, j, 1, len);
    }
    run(edge, rt, re, st, se, i, j, step, len)
}

// Both counts of so many runs, each `apart` words after the one before it.
fn grid<V: View>(
    view: V,
    rt: &[u64],
    re: &[u64],
    st: &[u64],
    se: &[u64],
    i: usize,
    j: usize,
    apart: usize,
    step: usize,
    lines: usize,
    len: usize,
) -> Counts
    requires { Alike rt.now re.now st.now se.now × LinesReach (length re.now) V.more i j apart step lines len
        × (apart ≤ 8192) × (step ≤ 8192) × (lines ≤ 8192) × (len ≤ 8192) × (i ≤ 268435456) × (j ≤ 268435456) }
    ensures { Counted (lines_sum (V.shown view) rt.now re.now st.now se.now i j apart step lines len) (lines * 524288) result.compared result.disagreeing }
{
    let mut compared: u64 = 0;
    let mut disagreeing: u64 = 0;
    let mut at = i;
    let mut from = j;
    for _ in 0..lines {
        let c = run(view, rt, re, st, se, at, from, step, len);
        compared += c.compared;
        disagreeing += c.disagreeing;
        at += apart;
        from += apart;
    }
    Counts {
        disagreeing,
        compared,
    }
}

// Both counts of `rows` rows of `columns` words, seven rows at a time and the rows that are left; n words are a row of the frame.
fn by_sevens<V: View>(
    view: V,
    rt: &[u64],
    re: &[u64],
    st: &[u64],
    se: &[u64],
    n: usize,
    i: usize,
    j: usize,
    rows: usize,
    columns: usize,
) -> Counts
    requires { Alike rt.now re.now st.now se.now × LinesReach (length re.now) V.more i j n 1 rows columns
        × (n ≤ 128) × (rows ≤ 8192) × (columns ≤ n) × (i ≤ 1048704) × (j ≤ 1048704) }
    ensures { Counted (lines_sum (V.shown view) rt.now re.now st.now se.now i j n 1 rows columns) 4294967296 result.compared result.disagreeing }
{
    let mut compared: u64 = 0;
    let mut disagreeing: u64 = 0;
    let mut at = i;
    let mut from = j;
    for _ in 0..rows / 7 {
        let c = sevens(view, rt, re, st, se, at, from, n, columns);
        compared += c.compared;
        disagreeing += c.disagreeing;
        at += 7 * n;
        from += 7 * n;
    }
    let upper = Counts {
        disagreeing,
        compared,
    };
    together(
        upper,
        grid(view, rt, re, st, se, at, from, n, 1, rows % 7, columns),
    )
}

// Both counts of `rows` rows of `columns` words. A narrow rectangle is counted by columns, so that the inner run is long.
fn rectangle<V: View>(
    view: V,
    rt: &[u64],
    re: &[u64],
    st: &[u64],
    se: &[u64],
    n: usize,
    i: usize,
    j: usize,
    rows: usize,
    columns: usize,
) -> Counts
    requires { Alike rt.now re.now st.now se.now × LinesReach (length re.now) V.more i j n 1 rows columns
        × (n ≤ 128) × (rows ≤ 8192) × (columns ≤ n) × (i ≤ 1048704) × (j ≤ 1048704) }
    ensures { Counted (lines_sum (V.shown view) rt.now re.now st.now se.now i j n 1 rows columns) 4294967296 result.compared result.disagreeing }
{
    if columns < 4 {
        return grid(view, rt, re, st, se, i, j, 1, n, columns, rows);
    }
    by_sevens(view, rt, re, st, se, n, i, j, rows, columns)
}

// Both counts of `rows` rows of n words, from word i of the reference and word j of the target on, each target row moved by m words
// to the right or q words to the left. Rows that do not move are one run.
fn aligned(
    rt: &[u64],
    re: &[u64],
    st: &[u64],
    se: &[u64],
    n: usize,
    rows: usize,
    i: usize,
    j: usize,
    m: usize,
    q: usize,
) -> Counts
    requires { Alike rt.now re.now st.now se.now × (n ≤ 128) × (rows ≤ 8192) × (i + rows * n ≤ length re.now) × (j + rows * n ≤ length re.now)
        × (min m q ≡ 0) × (m ≤ n) × (q < n) }
    ensures { Counted (moved_rows rt.now re.now st.now se.now n rows i j m q 0) 8589934592 result.compared result.disagreeing }
{
    if m + q == 0 {
        return flat(rt, re, st, se, i, j, rows * n);
    }
    rectangle(Whole, rt, re, st, se, n, i + m, j + q, rows, n - m - q)
}

// The same where each target row is then moved by `bit` columns to the left.
pub(crate) fn moved(
    rt: &[u64],
    re: &[u64],
    st: &[u64],
    se: &[u64],
    n: usize,
    rows: usize,
    i: usize,
    j: usize,
    m: usize,
    q: usize,
    bit: usize,
) -> Counts
    requires { Alike rt.now re.now st.now se.now × (n ≤ 128) × (rows ≤ 8192) × (i + rows * n ≤ length re.now) × (j + rows * n ≤ length re.now)
        × (min m q ≡ 0) × (m ≤ n) × (q < n) × (bit < 64) }
    ensures { Counted (moved_rows rt.now re.now st.now se.now n rows i j m q bit) 8589934592 result.compared result.disagreeing }
{
    if bit == 0 {
        return aligned(rt, re, st, se, n, rows, i, j, m, q);
    }
    let view = Spanned { bit };
    if m > 0 {
        let edge = Edged {
            down: 0,
            up: WORD_BITS - bit,
        };
        let inner = rectangle(view, rt, re, st, se, n, i + m, j + q, rows, n - m);
        let side = edge_column(edge, rt, re, st, se, i + (m - 1), j, n, rows);
        return together(inner, side);
    }
    let edge = Edged { down: bit, up: 0 };
    let last = n - 1;
    let columns = last - q;
    let inner = rectangle(view, rt, re, st, se, n, i + m, j + q, rows, columns);
    let side = edge_column(edge, rt, re, st, se, i + columns, j + last, n, rows);
    together(inner, side)
}
