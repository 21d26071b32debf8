// Reads a sheet from standard input and prints for each record the line of its first plan, or of what refuses it. Input
// that cannot be read, or output that cannot be written, is told on standard error.
#![tactic(auto)]

use sheet::Kind;

fn main(rt: HostRuntime) {
    if let Err(error) = printing::print_sheet(&rt, Kind::Plan) {
        let _ = eprintln!(rt; "horizon: {error}");
    }
}
