// From the bytes of a file to those of the same nodes in the other form.
ghost use Rattle.std.specs.Prelude.{◌≡◌, length};
ghost use Rattle.diagram.specs.Limits.{max_words};
ghost use Rattle.diagram.specs.Refusal.{number_of};
ghost use Rattle.diagram.specs.Verdict.{said, verdict_of};
ghost use Rattle.diagram.specs.declared.verdict.Output.TheVariants.{Nothing};
ghost use Rattle.writing.specs.Writing.{Wrote};
ghost use Rattle.report.specs.Report.{room_lent};
ghost use Rattle.messages.specs.Texts.{refusal_text};
ghost use Rattle.converting.specs.Converting.{other, storing, file_done, Finds, Converts};

use crate::Ends;
use crate::texts::write_nodes;
use blocks::stored::Stored;
use diagram::limits::{MAX_NODES, MAX_WORDS, ROOM_PER_NODE};
use diagram::verdict::{Refused, Verdict};
use diagram_check::validate::validate;
use forms::{Form, file_bytes, read_form, write_form};
use messages::refusal::write_refusal_of;

// Words of the room to check the most nodes.
const ROOM: usize = ROOM_PER_NODE * MAX_NODES;

fn other_form(form: Form) -> Form
    ensures { result ≡ other form }
{
    match form {
        Form::Blocks => Form::Nodes,
        Form::Nodes => Form::Blocks,
    }
}

// In a function of its own: the room is given back before anything is written.
fn check(words: &[u32]) -> Verdict
    ensures { said result ≡ verdict_of words.now Nothing room_lent }
{
    let mut room = [0u32; ROOM];
    validate(words, &mut room)
}

// The words of a file that are a diagram, or the refusal of the file or of its words.
fn read_diagram(form: Form, bytes: &[u8], words: &mut [u32]) -> Stored
    requires { length words.old ≡ max_words }
    ensures { Finds form bytes.now words.old words.new result }
{
    let nodes = read_form(form, bytes, words)?;
    check(&words[..3 * nodes])?;
    Ok(nodes)
}

fn refuse(text: &mut [u8], refused: Refused) -> Ends
    ensures { (result.file ≡ 0) × Wrote (refusal_text (number_of refused.reason) refused.place) text.old 0 text.new result.text }
{
    let end = write_refusal_of(text, 0, refused);
    Ends { file: 0, text: end }
}

fn hand_out(to: Form, words: &[u32], file: &mut [u8], text: &mut [u8]) -> Ends
    ensures { Converts (storing to words.now (length file.old)) file.old file.new text.old text.new result.file result.text }
{
    match write_form(to, words, file) {
        Ok(nodes) => {
            let end = write_nodes(text, nodes);
            Ends {
                file: file_bytes(to, nodes),
                text: end,
            }
        }
        Err(refused) => refuse(text, refused),
    }
}

// The whole conversion of a file in one form.
pub(crate) fn convert(from: Form, bytes: &[u8], file: &mut [u8], text: &mut [u8]) -> Ends
    ensures { Converts (file_done from bytes.now (length file.old)) file.old file.new text.old text.new result.file result.text }
{
    let to = other_form(from);
    let mut words = [0u32; MAX_WORDS];
    match read_diagram(from, bytes, &mut words) {
        Ok(nodes) => hand_out(to, &words[..3 * nodes], file, text),
        Err(refused) => refuse(text, refused),
    }
}
