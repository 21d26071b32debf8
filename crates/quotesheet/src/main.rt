// Reads a sheet from standard input and prints the line of each record. Input that cannot be read, or output that cannot
// be written, is told on standard error.
#![tactic(auto)]

use printing::PrintError;
use sheet::Kind;

// This and `run` are functions of their own for speed alone: here the compiler learns the kind and drops the code of the
// others, and in `run` it joins what has one caller left. With both in `main` a record with time left takes 0.9 µs more.
fn print_lines(rt: &HostRuntime) -> Result<usize, PrintError> {
    printing::print_sheet(rt, Kind::Line)
}

fn run(rt: &HostRuntime) {
    if let Err(error) = print_lines(rt) {
        let _ = eprintln!(rt; "quotesheet: {error}");
    }
}

fn main(rt: HostRuntime) {
    run(&rt);
}
