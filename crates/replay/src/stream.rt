// A list that is read, as from standard input, a case at a time.
ghost use Rattle.std.specs.Prelude.{◌≤◌, length, take, IfOk, IfSome, OnOk};
ghost use Rattle.std.specs.Io.KnownBytes.{Consumes};
ghost use Rattle.replay.specs.Stream.{TakesSize, TakesCase};

use crate::case::{NUMBER_BYTES, number_at};
use std::io;
use std::io::{ErrorKind, Read};

// How many bytes are read away at a time.
const CHUNK: usize = 4096;

// Why the next case is not in the buffer.
#[derive(Clone, Copy, Debug, PartialEq, Eq)]
pub enum CaseError {
    // It is larger than the buffer and was passed over.
    TooLarge,
    // The list is cut off.
    Broken,
}

// A read that fails cuts the list off.
impl From<io::Error> for CaseError {
    fn from(_: io::Error) -> CaseError {
        CaseError::Broken
    }
}

// Reads until the buffer is full, the list ends or a read fails, and answers how many bytes were read.
fn read_full<R: Read>(list: &mut R, buffer: &mut [u8]) -> usize
    ensures within { result ≤ length buffer.new }
    ensures bytes { Consumes (R.remaining list.old) (R.remaining list.new) (take result buffer.new) }
{
    let mut done = 0;
    while done < buffer.len() {
        match list.read(&mut buffer[done..]) {
            Ok(0) | Err(_) => break,
            Ok(read) => done += read,
        }
    }
    done
}

// Reads so many bytes of the list away. A read that fails behind some bytes of a chunk is tried again.
fn skip<R: Read>(list: &mut R, size: usize) -> io::Result<()> {
    let mut chunk = [0u8; CHUNK];
    let mut left = size;
    while left > 0 {
        let part = left.min(CHUNK);
        let read = read_full(list, &mut chunk[..part]);
        if read == 0 {
            return Err(ErrorKind::UnexpectedEof.into());
        }
        left -= read;
    }
    Ok(())
}

// The size of the next case; none at the list's end. A read that fails there is the list's end.
fn next_size<R: Read>(list: &mut R) -> io::Result<Option<usize>>
    ensures { IfOk result (λ o. IfSome o (λ size. TakesSize (R.remaining list.old) (R.remaining list.new) size)) }
{
    let mut head = [0u8; NUMBER_BYTES];
    match read_full(list, &mut head) {
        0 => Ok(None),
        NUMBER_BYTES => Ok(Some(number_at(&head, 0) as usize)),
        _ => Err(ErrorKind::UnexpectedEof.into()),
    }
}

// Reads the next case of the list into the buffer, and answers its bytes there; none at the list's end.
pub fn next_case<'a, R: Read>(
    list: &mut R,
    buffer: &'a mut [u8],
) -> Result<Option<&'a [u8]>, CaseError>
    ensures within { IfOk result (λ o. IfSome o (λ case. length case.now ≤ length buffer.old)) }
    ensures taken { IfOk result (λ o. IfSome o (λ case. TakesCase (R.remaining list.old) (R.remaining list.new) case.now)) }
{
    let Some(size) = next_size(list)? else {
        return Ok(None);
    };
    if buffer.len() < size {
        skip(list, size)?;
        return Err(CaseError::TooLarge);
    }
    let case = &mut buffer[..size];
    if read_full(list, case) < size {
        return Err(CaseError::Broken);
    }
    Ok(Some(case))
}
