// Nodes as words: a pointer names a node, a variable names a signal, and neither is taken for the other.
ghost use Rattle.std.specs.Prelude.{◌≡◌, Bool, length, get_or, ltb};
ghost use Rattle.diagram.specs.Diagram.{var_of, low_of, high_of};

#[derive(Clone, Copy)]
pub struct BddPointer(pub u32);

#[derive(Clone, Copy)]
pub struct BddVariable(pub u32);

impl BddPointer {
    // The terminals are nodes 0 and 1.
    pub fn is_terminal(self) -> bool
        ensures { result ≡ ltb self.0 2 }
    {
        self.0 < 2
    }

    pub fn to_index(self) -> usize
        ensures { result ≡ self.0 }
    {
        self.0 as usize
    }
}

impl BddVariable {
    // Whether this variable is tested before the other one.
    pub fn is_before(self, other: BddVariable) -> bool
        ensures { result ≡ ltb self.0 other.0 }
    {
        self.0 < other.0
    }
}

// The word at a place, and 0 past the end: so that no caller has to show that the place is inside.
pub fn word(words: &[u32], at: usize) -> u32
    ensures { result ≡ get_or words.now at 0 }
{
    if at < words.len() { words[at] } else { 0 }
}

pub fn var_of(words: &[u32], node: BddPointer) -> BddVariable
    ensures { result.0 ≡ var_of words.now node.0 }
{
    BddVariable(word(words, 3 * (node.0 as usize)))
}

pub fn low_link_of(words: &[u32], node: BddPointer) -> BddPointer
    ensures { result.0 ≡ low_of words.now node.0 }
{
    BddPointer(word(words, 3 * (node.0 as usize) + 1))
}

pub fn high_link_of(words: &[u32], node: BddPointer) -> BddPointer
    ensures { result.0 ≡ high_of words.now node.0 }
{
    BddPointer(word(words, 3 * (node.0 as usize) + 2))
}
