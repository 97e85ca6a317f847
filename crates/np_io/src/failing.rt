//! Calls that are to fail: pairs of a call's number and how many bytes it keeps.
ghost use Rattle.std.specs.Prelude.{◌≡◌, take};
ghost use Rattle.np_io.specs.Failing.{kept_by};

/// How many bytes the call of this number keeps, where it is to fail. The first pair of a number counts.
pub(crate) fn kept_by_call(failing: &[(u64, u64)], call: u64) -> Option<u64>
    ensures { result ≡ kept_by failing.now call }
{
    failing
        .iter()
        .find(|pair| pair.0 == call)
        .map(|pair| pair.1)
}

/// The first `kept` bytes, or all where there are fewer.
pub(crate) fn first_bytes(bytes: &[u8], kept: u64) -> &[u8]
    ensures { result.now ≡ take kept bytes.now }
{
    let end = bytes.len().min(kept as usize);
    &bytes[..end]
}
