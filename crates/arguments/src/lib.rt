// The words that a program was started with, as bytes in lent memory.
#![tactic(auto)]

ghost use Rattle.std.specs.Prelude.{◌≤◌, length};

use std::env::{Env, FillError};

// Puts argument i at the front of the buffer and answers its length, or 0 where it is missing or longer than the buffer. One that is too long
// leaves its first bytes there. Argument 0 is the program's own name.
pub fn arg<E: Env>(env: &E, i: usize, buffer: &mut [u8]) -> usize
    ensures { result ≤ length buffer.new }
{
    match env.arg(i, buffer) {
        Ok(length) => length,
        Err(_) => 0,
    }
}

// How many arguments there are, the program's own name among them.
pub fn arg_count<E: Env>(env: &E) -> usize {
    for i in 0..usize::MAX {
        if !is_there(env, i) {
            return i;
        }
    }
    usize::MAX
}

// One that is there may be longer than the buffer.
fn is_there<E: Env>(env: &E, i: usize) -> bool {
    let mut buffer = [0u8; 1];
    match env.arg(i, &mut buffer) {
        Err(FillError::NotPresent) => false,
        _ => true,
    }
}
