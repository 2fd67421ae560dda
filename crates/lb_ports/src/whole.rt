// What is read and written whole.
ghost use Rattle.std.specs.Prelude.{◌≡◌, ◌≤◌, vec_len, IfOk, OnOk, OnErr, IsErrOf};
ghost use Rattle.std.specs.Io.KnownBytes.{Appends};
ghost use Rattle.lb_ports.specs.Faults.{Rose};
ghost use Rattle.lb_ports.specs.Bytes.{ReadsAll, ReadsUpTo, ReadsMoreThan, AppendsPrefix};

use crate::ports::{Sink, Source};
use std::alloc::Global;

/// Why an input wasn't read to its end.
#[derive(Clone, Copy, Debug, PartialEq, Eq)]
pub enum ReadAllFault {
    /// A read failed.
    Read,
    /// There are more bytes than the limit.
    TooLong,
    /// Want of memory.
    Memory,
}

/// A write that was refused.
#[derive(Clone, Copy, Debug, PartialEq, Eq)]
pub struct WriteFault;

/// All bytes up to the end of the input, of which there are at most `limit`.
///
/// # Errors
/// `Read` only where the source's count of faults rose in this call, which it did in no other case. `TooLong` where
/// byte number `limit + 1` was read. `Memory` for want of memory. The bytes that were read before are gone.
pub fn read_all<I: Source>(
    alloc: Global,
    input: &mut I,
    limit: u32,
) -> Result<Vec<u8>, ReadAllFault>
    ensures all { IfOk result (λ bytes.
        ReadsAll (I.left input.old) (I.left input.new) bytes.items) }
    ensures within { IfOk result (λ bytes. vec_len bytes ≤ limit) }
    ensures too_long { IsErrOf result ReadAllFault.TooLong →
        ReadsMoreThan (I.left input.old) (I.left input.new) limit }
    ensures read { IsErrOf result ReadAllFault.Read →
        ReadsUpTo (I.left input.old) (I.left input.new) limit }
    ensures memory { IsErrOf result ReadAllFault.Memory →
        ReadsUpTo (I.left input.old) (I.left input.new) limit }
    ensures later { I.faults input.old ≤ I.faults input.new }
    ensures cause { IsErrOf result ReadAllFault.Read →
        Rose (I.faults input.old) (I.faults input.new) }
    ensures steady { OnOk result (I.faults input.new ≡ I.faults input.old) }
    ensures long_steady { IsErrOf result ReadAllFault.TooLong →
        I.faults input.new ≡ I.faults input.old }
    ensures memory_steady { IsErrOf result ReadAllFault.Memory →
        I.faults input.new ≡ I.faults input.old }
{
    let mut bytes = Vec::new(alloc);
    let mut piece = [0u8; 4096];
    loop {
        let Ok(count) = input.read(&mut piece) else {
            return Err(ReadAllFault::Read);
        };
        if count == 0 {
            return Ok(bytes);
        }
        if count > limit as usize - bytes.len() {
            return Err(ReadAllFault::TooLong);
        }
        if bytes.extend_from_slice(&piece[..count]).is_err() {
            return Err(ReadAllFault::Memory);
        }
    }
}

/// Writes all the bytes, in order. It takes no memory.
///
/// # Errors
/// `WriteFault` only where the sink's count of faults rose in this call, which it did in no other case. A front of
/// the bytes was written then, and not all of them.
pub fn write_all<O: Sink>(output: &mut O, bytes: &[u8]) -> Result<(), WriteFault>
    ensures ok { OnOk result (Appends (O.held output.old) (O.held output.new) bytes.now) }
    ensures err { OnErr result (AppendsPrefix (O.held output.old) (O.held output.new) bytes.now) }
    ensures later { O.faults output.old ≤ O.faults output.new }
    ensures cause { OnErr result (Rose (O.faults output.old) (O.faults output.new)) }
    ensures steady { OnOk result (O.faults output.new ≡ O.faults output.old) }
{
    let mut rest = bytes;
    while !rest.is_empty() {
        match output.write(rest) {
            Ok(0) | Err(_) => return Err(WriteFault),
            Ok(count) => rest = &rest[count..],
        }
    }
    Ok(())
}
