// The program: see crates/evening_program.
#![tactic(auto)]

use evening_program::run_program;

fn main(rt: HostRuntime) {
    run_program(rt);
}
