// Mosaics and their planes.
ghost use Rattle.std.specs.Prelude.{◌≡◌, List, map, length};
ghost use Rattle.definitions.specs.Refusals.{Check, answer, after};
ghost use Rattle.mosaic_format.specs.Mosaic.{apart, together, mosaic_checks, Plane, planes_of, planes_checks};
ghost use Rattle.mosaic.specs.Answers.{answered};
ghost use Rattle.mtb_c.specs.Status.{status_of};

use mosaic::MosaicError;

// As `frames::status`, of another error: one for both would want a trait and two impls for one match.
fn status_of(answer: Result<(), MosaicError>) -> u32
    ensures { result ≡ status_of (answered (λ done. done) answer) }
{
    match answer {
        Ok(()) => 0,
        Err(e) => e.number(),
    }
}

/// The four planes of a mosaic, one after another.
#[unsafe(no_mangle)]
pub extern "C" fn mtb_take_apart(
    mosaic: &[u8],
    width: usize,
    height: usize,
    planes: &mut [u8],
) -> u32
    ensures { (let checks : List Check = mosaic_checks width height (length mosaic.now) (length planes.old) in
        (result ≡ status_of (answer checks (tt {0})))
        × (planes.new ≡ after checks (apart width height mosaic.now) planes.old)) }
{
    status_of(mosaic::take_apart(mosaic, width, height, planes))
}

/// The mosaic of four planes.
#[unsafe(no_mangle)]
pub extern "C" fn mtb_put_together(
    planes: &[u8],
    width: usize,
    height: usize,
    mosaic: &mut [u8],
) -> u32
    ensures { (let checks : List Check = mosaic_checks width height (length mosaic.old) (length planes.now) in
        (result ≡ status_of (answer checks (tt {0})))
        × (mosaic.new ≡ after checks (together width height planes.now) mosaic.old)) }
{
    status_of(mosaic::put_together(planes, width, height, mosaic))
}

/// Where the four planes of a mosaic start, and their sides.
#[unsafe(no_mangle)]
pub extern "C" fn mtb_planes(
    width: usize,
    height: usize,
    starts: &mut [usize; 4],
    widths: &mut [usize; 4],
    heights: &mut [usize; 4],
) -> u32
    ensures { (let checks : List Check = planes_checks width height in
        let planes : List Plane = planes_of width height in
        (result ≡ status_of (answer checks (tt {0})))
        × (starts.new ≡ after checks (map (λ (p : Plane). p.start) planes) starts.old)
        × (widths.new ≡ after checks (map (λ (p : Plane). p.width) planes) widths.old)
        × (heights.new ≡ after checks (map (λ (p : Plane). p.height) planes) heights.old)) }
{
    match mosaic::layout(width, height) {
        Ok(planes) => {
            *starts = [
                planes.even_even.start,
                planes.even_odd.start,
                planes.odd_even.start,
                planes.odd_odd.start,
            ];
            *widths = [
                planes.even_even.width,
                planes.even_odd.width,
                planes.odd_even.width,
                planes.odd_odd.width,
            ];
            *heights = [
                planes.even_even.height,
                planes.even_odd.height,
                planes.odd_even.height,
                planes.odd_odd.height,
            ];
            0
        }
        Err(e) => e.number(),
    }
}
