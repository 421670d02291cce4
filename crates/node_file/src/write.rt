// Writing the file of some nodes.
ghost use Rattle.std.specs.Prelude.{◌≡◌};
ghost use Rattle.blocks.specs.Block.{said};
ghost use Rattle.node_file.specs.NodeFile.{write_outcome, WritesNodes};

use block_file::write::first_wide;
use blocks::layout::PLACE;
use blocks::nodes::put_nodes;
use blocks::stored::Stored;
use diagram::limits::MAX_NODES;
use diagram::refusal::Refusal;
use diagram::verdict::Refused;

// The tests in their order; `lent` is the length of the buffer.
fn test_words(words: &[u32], lent: usize) -> Stored
    ensures { said result ≡ write_outcome words.now lent }
{
    if words.len() == 0 {
        return Err(Refused {
            reason: Refusal::NoWords,
            place: 0,
        });
    }
    if words.len() % 3 != 0 {
        return Err(Refused {
            reason: Refusal::BrokenWords,
            place: 0,
        });
    }
    let nodes = words.len() / 3;
    if MAX_NODES < nodes {
        return Err(Refused {
            reason: Refusal::TooManyInFile,
            place: 0,
        });
    }
    if lent < PLACE * nodes {
        return Err(Refused {
            reason: Refusal::ShortFile,
            place: 0,
        });
    }
    let wide = first_wide(words);
    if wide < nodes {
        return Err(Refused {
            reason: Refusal::WideNode,
            place: wide,
        });
    }
    Ok(nodes)
}

// The file stands at the front of the buffer, node after node; the rest of the buffer is as it was.
pub fn write_as_bytes(words: &[u32], bytes: &mut [u8]) -> Stored
    ensures { WritesNodes words.now bytes.old bytes.new result }
{
    let nodes = test_words(words, bytes.len())?;
    put_nodes(bytes, 0, words);
    Ok(nodes)
}
