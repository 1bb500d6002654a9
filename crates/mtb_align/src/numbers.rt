// The base-two logarithm by leading zeros, as the original has it: std's own contract does not say that it is these
// (01 asks for leading zeros).
ghost use Rattle.std.specs.Prelude.{◌≡◌, ◌≤◌};
ghost use Rattle.definitions.specs.Align.{log2};

// The base-two logarithm, rounded down.
pub(crate) fn ilog2(n: usize) -> usize
    requires { 1 ≤ n }
    ensures { result ≡ log2 n }
{
    (63 - usize::leading_zeros(n)) as usize
}
