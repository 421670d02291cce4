// The program: see crates/shrink_program.
#![tactic(auto)]

use shrink_program::run_program;

fn main(rt: HostRuntime) {
    run_program(rt);
}
