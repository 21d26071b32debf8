// Reads a sheet from standard input and prints the ladder of each record, or the line of what refuses it. Input that
// cannot be read, or output that cannot be written, is told on standard error.
#![tactic(auto)]

use sheet::Kind;

fn main(rt: HostRuntime) {
    if let Err(error) = printing::print_sheet(&rt, Kind::Ladder) {
        let _ = eprintln!(rt; "ladder: {error}");
    }
}
