// Node files: diagrams as ten bytes a node, one node after another, with no header and no sums. This is what the Rust crate's
// `write_as_bytes` and `read_as_bytes` are documented to use; docs/NODE-FILES.md has the form.
#![tactic(auto)]

pub mod layout;
pub mod read;
pub mod write;
