// What a refused call tells besides its number.
ghost use Rattle.std.specs.Prelude.{◌≡◌};
ghost use Rattle.std.proofs.lemmas.List.Edits.{sets};
ghost use Rattle.mtb_align.specs.Answers.{values_of, answered};
ghost use Rattle.mtb_c.specs.Status.{status_of, values_after};

use mtb_align::error::Error;

// The values of a refusal at the front of a list, which is written and never read.
pub(crate) fn put_values(e: Error, values: &mut [usize; 5])
    ensures { values.new ≡ sets values.old 0 (values_of e) }
{
    match e {
        Error::SizeMismatch(r, t) => {
            values[0] = r.width;
            values[1] = r.height;
            values[2] = t.width;
            values[3] = t.height;
        }
        Error::FrameMismatch(n, t, k) => {
            values[0] = n.width;
            values[1] = n.height;
            values[2] = t.width;
            values[3] = t.height;
            values[4] = k;
        }
        Error::NoSuchReference(r, n) => {
            values[0] = r;
            values[1] = n;
        }
        Error::Records(n) => {
            values[0] = n;
        }
        _ => {}
    }
}

// A status, with the values of a refusal.
pub(crate) fn status_with(o: Result<(), Error>, values: &mut [usize; 5]) -> u32
    ensures status { result ≡ status_of (answered (λ done. done) o) }
    ensures values { values.new ≡ values_after (answered (λ done. done) o) values.old }
{
    match o {
        Ok(()) => 0,
        Err(e) => {
            put_values(e, values);
            e.number()
        }
    }
}
