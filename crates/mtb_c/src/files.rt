// Frames from PGM files, and frames written as such.
ghost use Rattle.std.specs.Prelude.{◌≡◌, List, length};
ghost use Rattle.std.proofs.Math.ListN as lists;
ghost use Rattle.definitions.specs.Refusals.{Check, answer, after};
ghost use Rattle.pgm_format.specs.Pgm.{Image, read_checks, image_read, Frame, pgm, write_checks, written};
ghost use Rattle.pgm_format.specs.Stack.{images_from, next_from, widths_of, heights_of, joined_samples, read_stack_checks};
ghost use Rattle.mtb_c.specs.Status.{status_of};

/// The image at a place of a file: its size, where its samples start in the file, and the place behind them.
#[unsafe(no_mangle)]
pub extern "C" fn mtb_read_pgm(
    file: &[u8],
    at: usize,
    width: &mut usize,
    height: &mut usize,
    samples: &mut usize,
    next: &mut usize,
) -> u32
    ensures { (let checks : List Check = read_checks file.now at in
        let image : Image = image_read file.now at in
        (result ≡ status_of (answer checks (tt {0})))
        × (width.new ≡ after checks image.width width.old)
        × (height.new ≡ after checks image.height height.old)
        × (samples.new ≡ after checks image.start samples.old)
        × (next.new ≡ after checks image.next next.old)) }
{
    match pgm::read(file, at) {
        Ok(image) => {
            *width = image.width;
            *height = image.height;
            *samples = image.start;
            *next = image.next;
            0
        }
        Err(e) => e.number(),
    }
}

/// The images from a place of a file on as a stack, as many as there are widths; the place behind the last.
#[unsafe(no_mangle)]
pub extern "C" fn mtb_read_stack(
    file: &[u8],
    at: usize,
    widths: &mut [usize],
    heights: &mut [usize],
    samples: &mut [u8],
    next: &mut usize,
) -> u32
    ensures { (let checks : List Check = read_stack_checks file.now at (length widths.old) (length heights.old) (length samples.old) in
        let images : List Image = images_from file.now at (length widths.old) in
        (result ≡ status_of (answer checks (tt {0})))
        × (widths.new ≡ after checks (widths_of images) widths.old)
        × (heights.new ≡ after checks (heights_of images) heights.old)
        × (samples.new ≡ after checks (joined_samples file.now images) samples.old)
        × (next.new ≡ after checks (next_from file.now at (length widths.old)) next.old)) }
{
    match pgm::stack::read_stack(file, at, widths, heights, samples) {
        Ok(place) => {
            *next = place;
            0
        }
        Err(e) => e.number(),
    }
}

/// Writes a frame as a PGM file at the front of a buffer; the file's length. What lies past it stays.
#[unsafe(no_mangle)]
pub extern "C" fn mtb_write_pgm(
    samples: &[u8],
    width: usize,
    height: usize,
    file: &mut [u8],
    length: &mut usize,
) -> u32
    ensures { (let frame : Frame = record { width = width; height = height; samples = samples.now } in
        let checks : List Check = write_checks frame (lists.length file.old) in
        (result ≡ status_of (answer checks (tt {0})))
        × (file.new ≡ after checks (written frame file.old) file.old)
        × (length.new ≡ after checks (lists.length (pgm frame)) length.old)) }
{
    match pgm::write(samples, width, height, file) {
        Ok(n) => {
            *length = n;
            0
        }
        Err(e) => e.number(),
    }
}
