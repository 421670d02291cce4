// Words of a lent working room.
ghost use Rattle.std.specs.Prelude.{◌≡◌, min, max, ◌++◌, length, set, drop, replicate};

// Writes a word at a place; a place past the end is left aside.
pub fn put(room: &mut [u32], at: usize, x: u32)
    ensures { room.new ≡ set room.old at x }
{
    if at < room.len() {
        room[at] = x;
    }
}

// The number of nodes that lent words are measured by: at least two, since an answer may be the constant true.
pub fn most(nodes: usize) -> usize
    ensures { result ≡ max nodes 2 }
{
    nodes.max(2)
}

// Makes the first `count` words zero, or all where there are fewer. A loop, which becomes one jump to memset: `fill` writes the last word apart.
pub fn clear(room: &mut [u32], count: usize)
    ensures { room.new ≡ replicate (min count (length room.old)) 0 ++ drop count room.old }
{
    let end = count.min(room.len());
    for i in 0..end {
        room[i] = 0;
    }
}
