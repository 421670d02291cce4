// What reading and writing answer: the number of nodes in the file, or why it is refused, and where.
use diagram::verdict::Refused;

pub type Stored = Result<usize, Refused>;
