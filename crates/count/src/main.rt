// Reads a plan on standard input and prints the line `number length count` of the answer that `whole` prints.
// It differs from the other programs in the function that it hands on: each is a `main` of its own.
#![tactic(auto)]

use std::io;

fn main(rt: HostRuntime) -> io::Result<()> {
    programs::run(&mut rt.stdin(), &rt, programs::count)
}
