// 02, point 13, as a run. Each line is read, and what it keeps is written as a line again; where it keeps nothing, the refusal's number stands.
// First 02's order of fields in each mode, then a version 1 line, then a line for each way to be refused.
#![tactic(auto)]

use best_effort::BestEffort;
use refusals::Refusal;
use std::io::{self, BufWriter, Write};

static LINES: [&str; 21] = [
    // version, mode, clock rate, D, G, fixed delay, initial delay, default resend delay, max attempts, min, max, t
    "           2           0       11000          12        1013           0          15          16          17           0           0           0\n",
    "           2           1       11000          12        1013          14          15          16          17           0           0           0\n",
    "           2           2       11000          12        1013           0          15          16           4          18          19          20\n",
    // the last: nack_window, discarded
    "           1           1       11000          12        1013          14          15          16          17          21\n",
    "           1           0       11000          12        1013           0          15          16          17999999999999\n",
    // 21: another version, a version elsewhere in its field, too short for one
    "           3           1       11000          12        1013          14          15          16          17           0           0           0\n",
    "          2            1       11000          12        1013          14          15          16          17           0           0           0\n",
    "          2\n",
    // 20: no field behind the version; a length that is the other version's; no line feed; a blank between digits; an empty field; a leading zero
    "           2\n",
    "           2           1       11000          12        1013          14          15          16          17          21\n",
    "           2           1       11000          12        1013          14          15          16          17           0           0           0 ",
    "           2           1       11 00          12        1013          14          15          16          17           0           0           0\n",
    "           2           1       11000                    1013          14          15          16          17           0           0           0\n",
    "           2           1       11000         012        1013          14          15          16          17           0           0           0\n",
    // 1: mode 2 in version 1, mode 3, a fixed delay in mode 0, a min in mode 1, five attempts in mode 2, a range
    "           1           2       11000          12        1013           0          15          16           4          21\n",
    "           2           3       11000          12        1013           0          15          16           4          18          19          20\n",
    "           2           0       11000          12        1013          14          15          16          17           0           0           0\n",
    "           2           1       11000          12        1013          14          15          16          17          18           0           0\n",
    "           2           2       11000          12        1013           0          15          16           5          18          19          20\n",
    "           2           1     1000001          12        1013          14          15          16          17           0           0           0\n",
    "           2           1999999999999          12        1013          14          15          16          17           0           0           0\n",
];

// What a line keeps, as a line again, or the refusal's number.
fn again(line: &str) -> Result<[u8; 145], Refusal> {
    let settings = settings_line::read_line(line.as_bytes())?;
    let mut row = [0; 145];
    settings_line::write_line(settings, &mut row)?;
    Ok(row)
}

fn main(rt: HostRuntime) -> io::Result<()> {
    let mut out = BufWriter::new(rt.alloc(), BestEffort::new(rt.stdout()))?;
    for line in LINES {
        match again(line) {
            Ok(row) => out.write_all(&row)?,
            Err(refusal) => writeln!(out, "{}", refusal.number())?,
        }
    }
    out.flush()
}
