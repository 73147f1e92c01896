// Reads a plan on standard input and prints what stands before the terms: header, trait and types, or `refused N`.
// It differs from the other programs in the function that it hands on: each is a `main` of its own.
#![tactic(auto)]

use std::io;

fn main(rt: HostRuntime) -> io::Result<()> {
    programs::run(&mut rt.stdin(), &rt, programs::items)
}
