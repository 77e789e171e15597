// Reads a trace from standard input, makes each call on the queue in order, and writes the answers to standard output (docs/TRACE.md).
//
// A line (input) is split into fields (field) and read into a call (call, opening), the call is made on the session that is open (receiver,
// run), its answer is a value and is written (answer, state, digits). Few functions here have a contract on what they answer: they are proved safe and
// ending, and judged by running them against the Rust. A further call is a variant and an arm in call, an arm in run, and a variant and an arm in
// answer.
//
// Memory is bounded, and taken before the first line is read: one block of input, one line and its fields, what calls write their answers into,
// one block of answers, and storage for the largest session, of which each session is lent the part that its D and G ask for.
#![tactic(auto)]

mod answer;
mod call;
mod digits;
mod field;
mod input;
mod opening;
mod receiver;
mod run;
mod scan;
mod state;

use std::io;

fn main(rt: HostRuntime) -> io::Result<()> {
    run::run(rt.alloc(), rt.stdin(), rt.stdout())
}
