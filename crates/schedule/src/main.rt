// Reads a plan on standard input and prints the sheet of its schedule faults, or `refused N`.
#![tactic(auto)]

use std::io;

fn main(rt: HostRuntime) -> io::Result<()> {
    programs::run_schedule(&mut rt.stdin(), &rt)
}
