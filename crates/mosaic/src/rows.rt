// Row by row from one to the other, so that both lists are walked through from their fronts.
ghost use Rattle.std.specs.Prelude.{◌≡◌, ◌+◌, ◌*◌, ◌/◌, ◌%◌, ◌≤◌, ◌<◌, length, get_or};
ghost use Rattle.std.proofs.lemmas.List.Edits.{sets};
ghost use Rattle.definitions.specs.Build.{build};
ghost use Rattle.mosaic_format.specs.Mosaic.{apart, place_of, together};
ghost use Rattle.mosaic_format.specs.Accepted.{InOrder};
ghost use Rattle.mosaic.specs.Rows.{every_second, woven};

use super::planes_of;

// Where the samples of a row of the mosaic stand in the planes: its even columns from one place on, its odd ones from another.
#[derive(Clone, Copy)]
struct Row {
    evens: usize,
    odds: usize,
}

#[tactic(auto, using(crate::proofs::Standing::row_stands))]
fn row_of(width: usize, height: usize, y: usize) -> Row
    requires { (width ≤ 8192) × (height ≤ 8192) × (y < height) }
    ensures { (result.evens ≡ place_of width height 0 y) × (result.odds ≡ place_of width height 1 y) }
{
    let planes = planes_of(width, height);
    let v = y / 2;
    if y % 2 == 0 {
        return Row {
            evens: planes.even_even.start + v * planes.even_even.width,
            odds: planes.even_odd.start + v * planes.even_odd.width,
        };
    }
    Row {
        evens: planes.odd_even.start + v * planes.odd_even.width,
        odds: planes.odd_odd.start + v * planes.odd_odd.width,
    }
}

// Two samples side by side in one number, the left one below: one load, by which a row is read by vectors. mtb_align has the like: a
// public function for both would have no requires, and test the place at each pair.
fn side_by_side(samples: &[u8], at: usize) -> u16
    requires { at + 2 ≤ length samples.now }
    ensures { (result % 256 ≡ get_or samples.now at 0) × (result / 256 ≡ get_or samples.now (at + 1) 0) }
{
    u16::from_le_bytes([samples[at], samples[at + 1]])
}

// A row of a mosaic, from `from` on, taken apart: its even columns and its odd ones, each in a run.
#[tactic(auto, using(crate::proofs::Columns::taken))]
fn take_row(mosaic: &[u8], from: usize, width: usize, planes: &mut [u8], row: Row)
    requires { (from + width ≤ length mosaic.now)
        × (row.evens + (width + 1) / 2 ≤ row.odds)
        × (row.odds + width / 2 ≤ length planes.old) }
    ensures { planes.new
        ≡ sets (sets planes.old row.evens (every_second mosaic.now ((width + 1) / 2) from))
        row.odds
        (every_second mosaic.now (width / 2) (from + 1)) }
{
    let evens = row.evens;
    let odds = row.odds;
    let pairs = width / 2;
    for k in 0..pairs {
        let two = side_by_side(mosaic, from + 2 * k);
        planes[evens + k] = (two % 256) as u8;
        planes[odds + k] = (two / 256) as u8;
    }
    if width % 2 == 1 {
        planes[evens + pairs] = mosaic[from + 2 * pairs];
    }
}

// A row of a mosaic put together at `at`: samples of one run and of the other in turn.
#[tactic(auto, using(crate::proofs::Columns::put))]
fn put_row(planes: &[u8], row: Row, width: usize, mosaic: &mut [u8], at: usize)
    requires { (row.evens + (width + 1) / 2 ≤ length planes.now)
        × (row.odds + width / 2 ≤ length planes.now)
        × (at + width ≤ length mosaic.old) }
    ensures { mosaic.new ≡ sets mosaic.old at (build width (woven planes.now row.evens row.odds)) }
{
    let evens = row.evens;
    let odds = row.odds;
    let pairs = width / 2;
    for k in 0..pairs {
        mosaic[at + 2 * k] = planes[evens + k];
        mosaic[at + 2 * k + 1] = planes[odds + k];
    }
    if width % 2 == 1 {
        mosaic[at + 2 * pairs] = planes[evens + pairs];
    }
}

#[tactic(auto, using(crate::proofs::Wholes::rows_apart))]
pub(crate) fn take_rows(mosaic: &[u8], width: usize, height: usize, planes: &mut [u8])
    requires { InOrder width height (length mosaic.now) (length planes.old) }
    ensures { planes.new ≡ apart width height mosaic.now }
{
    for y in 0..height {
        take_row(mosaic, y * width, width, planes, row_of(width, height, y));
    }
}

#[tactic(auto, using(crate::proofs::Wholes::rows_together))]
pub(crate) fn put_rows(planes: &[u8], width: usize, height: usize, mosaic: &mut [u8])
    requires { InOrder width height (length mosaic.old) (length planes.now) }
    ensures { mosaic.new ≡ together width height planes.now }
{
    for y in 0..height {
        put_row(planes, row_of(width, height, y), width, mosaic, y * width);
    }
}
