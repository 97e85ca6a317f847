//! A whole file or piece through a reader or a writer, which may take or give a part at a time.
ghost use Rattle.std.specs.Prelude.{◌≡◌, ◌≤◌, ◌<◌, ◌↔◌, List, ℕ, Option, IfOk, OnOk, IfSome, IsErrOf, length, vec_len};
ghost use Rattle.std.specs.Io.KnownBytes.{Appends, Consumes, WriteAppends};
ghost use Rattle.std.specs.Io.{WritesAtMost};
ghost use Rattle.std.specs.IoError.{error_kind};
ghost use Rattle.np_io.specs.Streams.{AppendsPrefix};

use crate::shelf::{Fetch, Give};
use std::alloc::Global;
use std::io::{Error, ErrorKind, Read, Write};

/// How many bytes are asked for at a time.
const CHUNK: usize = 64 * 1024;

/// Reads a reader to its end, where it gives at most `limit` bytes. A read that gives no byte is the end.
pub(crate) fn read_whole<F: Read>(
    alloc: Global,
    reader: &mut F,
    limit: usize,
) -> Result<Vec<u8>, Fetch>
    ensures within { IfOk result (λ bytes. length bytes.items ≤ limit) }
    ensures whole { IfOk result (λ bytes. IfSome (F.remaining reader.old) (λ all. bytes.items ≡ all)) }
    ensures too_long { IsErrOf result Fetch.TooLong →
        IfSome (F.remaining reader.old) (λ all. limit < length all) }
    ensures limited { IsErrOf result Fetch.TooLong → limit < usize.MAX }
{
    let mut chunk = vec![in alloc; 0u8; CHUNK]?;
    read_chunks(alloc, reader, chunk.as_mut_slice(), limit)
}

/// Reads a reader to its end, a chunk at a time.
fn read_chunks<F: Read>(
    alloc: Global,
    reader: &mut F,
    chunk: &mut [u8],
    limit: usize,
) -> Result<Vec<u8>, Fetch>
    requires { 0 < length chunk.old }
    ensures within { IfOk result (λ bytes. length bytes.items ≤ limit) }
    ensures whole { IfOk result (λ bytes. IfSome (F.remaining reader.old) (λ all. bytes.items ≡ all)) }
    ensures too_long { IsErrOf result Fetch.TooLong →
        IfSome (F.remaining reader.old) (λ all. limit < length all) }
    ensures limited { IsErrOf result Fetch.TooLong → limit < usize.MAX }
{
    let mut bytes = Vec::new(alloc);
    for _ in 0..u64::MAX {
        match reader.read(chunk) {
            Ok(0) => return Ok(bytes),
            Ok(count) if count > limit - bytes.len() => return Err(Fetch::TooLong),
            Ok(count) => bytes.extend_from_slice(&chunk[..count])?,
            Err(error) if error.kind() == ErrorKind::Interrupted => {}
            Err(error) => return Err(fetch_fault(&error)),
        }
    }
    Err(Fetch::Failed)
}

/// Writes all bytes. A write that takes no byte is a fault, and so is a failure to flush.
pub(crate) fn write_whole<W: Write>(writer: &mut W, bytes: &[u8]) -> Result<(), Give>
    ensures ok { OnOk result (Appends (W.contents writer.old) (W.contents writer.new) bytes.now) }
    ensures prefix { AppendsPrefix (W.contents writer.old) (W.contents writer.new) bytes.now }
    ensures only { ¬ IsErrOf result Give.Memory }
{
    let mut done = 0;
    for _ in 0..u64::MAX {
        if done == bytes.len() {
            return match writer.flush() {
                Ok(()) => Ok(()),
                Err(_) => Err(Give::Failed),
            };
        }
        done += write_part(writer, &bytes[done..])?;
    }
    Err(Give::Failed)
}

/// Writes a part of the bytes, and answers how many. It is none where a signal came between.
fn write_part<W: Write>(writer: &mut W, bytes: &[u8]) -> Result<usize, Give>
    requires { 0 < length bytes.now }
    ensures bound { WritesAtMost result bytes.now }
    ensures bytes { WriteAppends (W.contents writer.old) (W.contents writer.new) result bytes.now }
    ensures only { ¬ IsErrOf result Give.Memory }
{
    match writer.write(bytes) {
        Ok(0) => Err(Give::Failed),
        Ok(count) => Ok(count),
        Err(error) if error.kind() == ErrorKind::Interrupted => Ok(0),
        Err(_) => Err(Give::Failed),
    }
}

/// Why nothing was fetched, after an error that changed nothing.
pub(crate) fn fetch_fault(error: &Error) -> Fetch
    ensures memory { result ≡ Fetch.Memory ↔ error_kind error.now ≡ ErrorKind.OutOfMemory }
    ensures short { ¬ (result ≡ Fetch.TooLong) }
{
    match error.kind() {
        ErrorKind::OutOfMemory => Fetch::Memory,
        _ => Fetch::Failed,
    }
}
