// Standard input, line by line.
use crate::scan;
use std::alloc::AllocError;
use std::io;
use std::io::{BufRead, BufReader, Read, Write};

// One byte more than the longest line that is read (docs/TRACE.md, "Lines"): a line that fills it is too long.
pub const LINE: usize = 65536;

// Puts a part of a line behind what is there of it, as far as `LINE` goes.
fn gather(line: &mut Vec<u8>, part: &[u8]) -> Result<(), AllocError> {
    let room = LINE.saturating_sub(line.len());
    let size = part.len().min(room);
    line.extend_from_slice(&part[..size])
}

// Reads the next line, without its line feed, and answers whether more is to be read. The end of the input ends a last line that has no line
// feed, a read that fails is taken for that end, and nothing is read after it. Answers are written before more input is waited for, for a
// program at the other end of a pipe.
pub(crate) fn next_line<R: Read, W: Write>(
    input: &mut BufReader<R>,
    out: &mut W,
    line: &mut Vec<u8>,
) -> io::Result<bool> {
    line.clear();
    for _ in 0..u64::MAX {
        if input.buffer().is_empty() {
            out.flush()?;
        }
        let block = input.fill_buf().unwrap_or(b"");
        if block.is_empty() {
            return Ok(false);
        }
        let end = scan::find(block, b'\n');
        let is_whole = end < block.len();
        gather(line, &block[..end])?;
        if is_whole {
            input.consume(end + 1);
            return Ok(true);
        }
        input.consume(end);
    }
    Ok(false)
}
