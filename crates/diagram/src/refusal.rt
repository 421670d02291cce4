// The refusals that are in force, each with its number of docs/RULES.md.
ghost use Rattle.diagram.specs.Refusal.{number_of};
ghost use Rattle.std.specs.Prelude.{◌≡◌};

#[derive(Clone, Copy, Debug, PartialEq, Eq, Hash)]
pub enum Refusal {
    // No words.
    NoWords = 1,
    // The words are not a multiple of 3.
    BrokenWords = 2,
    TooManyNodes = 3,
    // The output is too short.
    ShortOutput = 4,
    // The working room is too short.
    ShortRoom = 5,
    // Node 0 or node 1 is no terminal of the variable count.
    NoTerminal = 6,
    TooManyVariables = 7,
    // A node's variable, low link or high link is out of range.
    BadVariable = 8,
    BadLowLink = 9,
    BadHighLink = 10,
    // A reachable node has a low child that is not at a larger variable; or only its high child isn't.
    BrokenLowOrder = 11,
    BrokenHighOrder = 17,
    // A node is unreachable.
    Unreachable = 12,
    // A listed pointer names no node.
    BadPointer = 13,
    // A terminal is listed.
    ListedTerminal = 14,
    // The target count of an overapproximation is above 2^v.
    CountTooLarge = 16,
    // No answer to a size target has so few nodes.
    SizeTooSmall = 18,
    // The target count lies strictly between 0 and 2^v, and the diagram is a constant that can't be cut to it.
    NothingToCut = 19,
    // A block is short or missing, or bytes stand after the last one.
    ShortBlock = 21,
    // A check sum is wrong.
    WrongSum = 22,
    // A block number, a node count or the order of blocks is wrong.
    WrongCount = 23,
    // Unused bytes are not zero.
    UnusedBytes = 24,
    // More nodes than block files have.
    TooManyStored = 25,
    // A variable that takes more bytes than a block has for it.
    WideVariable = 26,
    // Two diagrams have different variable counts.
    OtherVariables = 31,
    // Two diagrams reach more pairs of nodes than the table has places for.
    TooManyPairs = 32,
    // A pool has no slot of that number.
    NoSuchSlot = 33,
    // The slot is taken where a condition is to be added, or empty where one is to be read or dropped.
    WrongSlot = 34,
    // The pool has another variable count than the diagram.
    OtherPool = 35,
    // The pool's table has no room for the condition.
    PoolFull = 36,
    // The summary beside a pool has fewer records than there are variables.
    ShortSummary = 37,
    // A settings block of a version that the reader does not know.
    UnknownVersion = 38,
    // A field of a settings block is out of its range.
    OutOfRange = 39,
    // The table and the slots are no well-formed pool.
    NoPool = 46,
    // The summary beside a pool does not agree with it.
    OtherSummary = 47,
    // A node file with no bytes.
    EmptyFile = 51,
    // A node file with a part of a node.
    BrokenNode = 52,
    // A node file with more nodes than a diagram has.
    TooManyInFile = 53,
    // The bytes for a node file are too few.
    ShortFile = 54,
    // A node that a node file has no bytes for.
    WideNode = 55,
}

impl Refusal {
    // The number that C, the programs and the papers know it by.
    pub fn number(self) -> u32
        ensures { result ≡ number_of self }
    {
        self as u32
    }
}
