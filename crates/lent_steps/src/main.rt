// Runs the steps of one block, over a lent state and by value, from a state in which binding 7 has a name; binding 5 is marked as a
// reference, then not. A line for each state that is returned: its depth, how many closures have a number, the bindings that are
// references, and those that have names.
#![tactic(auto)]

use context::body_context::BodyContext;
use context::lent::{BothWays, both_ways};
use std::io;

// The numbers of a set's bindings, each after a space.
fn print_set(rt: &impl Print, set: &[bool]) -> io::Result<()> {
    for (b, is_in) in set.iter().enumerate() {
        if *is_in {
            print!(rt; " {b}")?;
        }
    }
    Ok(())
}

fn print_state(rt: &impl Print, state: BodyContext) -> io::Result<()> {
    print!(rt;
        "depth {}, closures {}, references",
        state.nesting.depth, state.nesting.match_split
    )?;
    print_set(rt, &state.is_ref)?;
    print!(rt; ", names")?;
    print_set(rt, &state.is_bound)?;
    println!(rt)
}

fn print_both(rt: &impl Print, both: BothWays) -> io::Result<()> {
    print_state(rt, both.lent)?;
    print_state(rt, both.by_value)
}

fn main(rt: HostRuntime) -> io::Result<()> {
    let mut named = BodyContext::new();
    named.bind(7);
    print_both(&rt, both_ways(named, 5, true))?;
    print_both(&rt, both_ways(named, 5, false))
}
