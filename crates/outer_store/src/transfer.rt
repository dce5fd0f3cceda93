//! Reading and writing to the end: the system may transfer fewer bytes than it was asked to, so it is called again until all are transferred.
ghost use Rattle.std.specs.Prelude.{◌≡◌, ◌≢◌, ◌<◌, ◌≤◌, ℕ, IfOk, IfSome, IsErrOf, Err, length, take};
ghost use Rattle.std.specs.Bool.{OnTrue};
ghost use Rattle.std.specs.Io.KnownBytes.{Appends};
ghost use Rattle.ascii_scan.specs.Lines.{text_limit};

use crate::StoreError;
use ascii_scan::TEXT_LIMIT;
use std::alloc::Global;
use std::io::{Read, Write};

/// The most bytes that one call of `read` is asked for.
const CHUNK: usize = 4096;

/// All bytes up to the end, of which at most `TEXT_LIMIT` + 1 are read. Errors are `Failed`, `TooBig` and `Memory`.
pub(crate) fn read_all<R: Read>(alloc: Global, reader: &mut R) -> Result<Vec<u8>, StoreError>
    ensures small { IfOk result (λ v. length v.items ≤ text_limit) }
    ensures bytes { IfOk result (λ v. IfSome (R.remaining reader.old) (λ xs. v.items ≡ xs)) }
    ensures too_big { IsErrOf result StoreError.TooBig → IfSome (R.remaining reader.old) (λ xs. text_limit < length xs) }
    ensures found { result ≢ Err StoreError.Missing }
{
    let mut bytes = Vec::new(alloc);
    let mut buffer = [0u8; CHUNK];
    for _turn in 0..TEXT_LIMIT + 1 {
        let most = CHUNK.min(TEXT_LIMIT + 1 - bytes.len());
        match reader.read(&mut buffer[..most]) {
            Err(_) => return Err(StoreError::Failed),
            Ok(0) => return Ok(bytes),
            Ok(count) => {
                if bytes.len() + count > TEXT_LIMIT {
                    return Err(StoreError::TooBig);
                }
                if bytes.extend_from_slice(&buffer[..count]).is_err() {
                    return Err(StoreError::Memory);
                }
            }
        }
    }
    unreachable!()
}

/// Writes all bytes, and returns whether the writer took them. A call that takes no byte counts as a failure.
pub(crate) fn write_all<W: Write>(writer: &mut W, bytes: &[u8]) -> bool
    ensures whole { OnTrue result (Appends (W.contents writer.old) (W.contents writer.new) bytes.now) }
    ensures part { (k : ℕ) × Appends (W.contents writer.old) (W.contents writer.new) (take k bytes.now) }
{
    let mut at = 0;
    while at < bytes.len() {
        match writer.write(&bytes[at..]) {
            Err(_) => return false,
            Ok(0) => return false,
            Ok(count) => at += count,
        }
    }
    true
}
