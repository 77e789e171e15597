// Fields of a line (docs/TRACE.md, "Lines").
ghost use Rattle.std.specs.Prelude.{length};
ghost use Rattle.std.specs.Iterator.{at_most};

use crate::scan;
use std::alloc::AllocError;

#[derive(Clone, Copy, Debug, PartialEq, Eq)]
pub enum ReadError {
    // The line is no call.
    Unreadable,
    OutOfMemory,
}

impl From<AllocError> for ReadError {
    fn from(_: AllocError) -> Self {
        ReadError::OutOfMemory
    }
}

// What is left of a line: fields, each behind a blank.
#[derive(Drop)]
pub struct Fields<'a>(&'a [u8]);

// The word that a line begins with, and the fields behind it.
pub(crate) fn split(line: &[u8]) -> (&[u8], Fields<'_>) {
    let end = scan::find(line, b' ');
    (&line[..end], Fields(&line[end..]))
}

fn number(field: &[u8]) -> Result<u64, ReadError> {
    columns::number(field).ok_or(ReadError::Unreadable)
}

impl<'a> Iterator for Fields<'a> {
    type Item = &'a [u8];

    ghost remaining = { λ s. at_most (length s.0.now) };

    fn next(&mut self) -> Option<&'a [u8]> {
        let (_, behind) = self.0.split_first()?;
        let end = scan::find(behind, b' ');
        self.0 = &behind[end..];
        Some(&behind[..end])
    }
}

impl Fields<'_> {
    fn field(&mut self) -> Result<&[u8], ReadError> {
        self.next().ok_or(ReadError::Unreadable)
    }

    pub(crate) fn number(&mut self) -> Result<u64, ReadError> {
        number(self.field()?)
    }

    pub(crate) fn numbers<const N: usize>(&mut self) -> Result<[u64; N], ReadError> {
        let mut numbers = [0; N];
        for n in &mut numbers {
            *n = self.number()?;
        }
        Ok(numbers)
    }

    // Puts the bytes of a field that is HEX into `bytes`.
    pub(crate) fn hex<'b>(&mut self, bytes: &'b mut Vec<u8>) -> Result<&'b [u8], ReadError> {
        let digits = self.field()?;
        bytes.clear();
        if digits == b"-".as_slice() {
            return Ok(bytes);
        }
        if digits.is_empty() || digits.iter().any(u8::is_ascii_uppercase) {
            return Err(ReadError::Unreadable);
        }
        bytes.resize(digits.len() / 2, 0)?;
        match hex::decode_to_slice(digits, bytes) {
            Ok(()) => Ok(bytes),
            Err(_) => Err(ReadError::Unreadable),
        }
    }

    // Puts the numbers that the fields left are into `list`.
    pub(crate) fn list<'b>(self, list: &'b mut Vec<u64>) -> Result<&'b [u64], ReadError> {
        list.clear();
        for field in self {
            list.push(number(field)?).map_err(AllocError::from)?;
        }
        Ok(list)
    }

    // Numbers that are all the fields.
    pub(crate) fn only<const N: usize>(mut self) -> Result<[u64; N], ReadError> {
        let numbers = self.numbers()?;
        self.end()?;
        Ok(numbers)
    }

    // NOW, where that is the only field.
    pub(crate) fn now(self) -> Result<u64, ReadError> {
        let [now] = self.only::<1>()?;
        Ok(now)
    }

    // A number and HEX that are all the fields.
    pub(crate) fn with_hex<'b>(
        mut self,
        bytes: &'b mut Vec<u8>,
    ) -> Result<(u64, &'b [u8]), ReadError> {
        let n = self.number()?;
        let read = self.hex(bytes)?;
        self.end()?;
        Ok((n, read))
    }

    // That no field is left.
    pub(crate) fn end(self) -> Result<(), ReadError> {
        if self.0.is_empty() {
            Ok(())
        } else {
            Err(ReadError::Unreadable)
        }
    }
}
