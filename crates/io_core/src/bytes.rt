// Parts of byte slices.
ghost use Rattle.std.specs.Prelude.{◌≡◌, drop};
ghost use Rattle.io_core.specs.Files.{IsFilled};

/// Copies as many bytes to the front of `into` as there are or as fit, and returns how many.
pub fn fill(into: &mut [u8], bytes: &[u8]) -> usize
    ensures { IsFilled bytes.now into.old result into.new }
{
    let count = into.len().min(bytes.len());
    into[..count].copy_from_slice(&bytes[..count]);
    count
}

/// The bytes from a place on, and none where the place is past the end.
pub fn rest_from(bytes: &[u8], at: usize) -> &[u8]
    ensures { result.now ≡ drop at bytes.now }
{
    if at >= bytes.len() {
        return &[];
    }
    &bytes[at..]
}
