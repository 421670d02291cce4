// From the bytes of a file to those of the shrunk one and a summary.
ghost use Rattle.std.specs.Prelude.{◌≡◌, ◌≤◌, length};
ghost use Rattle.diagram.specs.Limits.{max_words};
ghost use Rattle.diagram.specs.Diagram.{Accepted};
ghost use Rattle.diagram.specs.Refusal.{number_of};
ghost use Rattle.writing.specs.Writing.{Wrote};
ghost use Rattle.report.specs.Report.{room_lent};
ghost use Rattle.request.specs.Request.{cut, aim_of};
ghost use Rattle.messages.specs.Texts.{refusal_text};
ghost use Rattle.shrinking.specs.Shrinking.{storing, diagram_done, done, Shrinks};

use crate::Ends;
use crate::summary::write_summary;
use crate::wanted::shrink_words;
use diagram::limits::{MAX_NODES, MAX_WORDS, ROOM_PER_NODE};
use diagram::verdict::Refused;
use forms::{Form, file_bytes, read_form, write_form};
use messages::refusal::write_refusal_of;
use request::Target;

// Words of the room to cut the most nodes: two megabytes, and so there is one, which serves the counts of the summary too.
const ROOM: usize = ROOM_PER_NODE * MAX_NODES;

fn refuse(text: &mut [u8], refused: Refused) -> Ends
    ensures { (result.file ≡ 0) × Wrote (refusal_text (number_of refused.reason) refused.place) text.old 0 text.new result.text }
{
    let end = write_refusal_of(text, 0, refused);
    Ends { file: 0, text: end }
}

// Stores an answer, and says what was done.
fn hand_out(
    form: Form,
    words: &[u32],
    answer: &[u32],
    target: Target,
    trials: usize,
    room: &mut [u32],
    file: &mut [u8],
    text: &mut [u8],
) -> Ends
    requires { Accepted words.now × Accepted answer.now × (room_lent ≤ length room.old) }
    ensures { Shrinks (storing form target.keep (aim_of target) words.now answer.now trials (length file.old)) file.old file.new text.old text.new result.file result.text }
{
    match write_form(form, answer, file) {
        Ok(nodes) => {
            let length = file_bytes(form, nodes);
            let end = write_summary(text, target, words, answer, trials, room);
            Ends {
                file: length,
                text: end,
            }
        }
        Err(refused) => refuse(text, refused),
    }
}

// Cuts a diagram as requested, in a room and an output that are long enough for any.
fn shrink_in(
    form: Form,
    words: &[u32],
    target: Target,
    room: &mut [u32],
    output: &mut [u32],
    file: &mut [u8],
    text: &mut [u8],
) -> Ends
    requires { (length room.old ≡ room_lent) × (length output.old ≡ max_words) }
    ensures { Shrinks (diagram_done form target.keep target.as_is (aim_of target) words.now (length file.old)) file.old file.new text.old text.new result.file result.text }
{
    match shrink_words(words, target, room, output) {
        Ok(found) => hand_out(
            form,
            words,
            &output[..3 * found.value.nodes],
            target,
            found.value.trials,
            room,
            file,
            text,
        ),
        Err(refused) => refuse(text, refused),
    }
}

// The same, with a room and an output of its own.
pub(crate) fn shrink_diagram(
    form: Form,
    words: &[u32],
    target: Target,
    file: &mut [u8],
    text: &mut [u8],
) -> Ends
    ensures { Shrinks (diagram_done form target.keep target.as_is (aim_of target) words.now (length file.old)) file.old file.new text.old text.new result.file result.text }
{
    let mut output = [0u32; MAX_WORDS];
    let mut room = [0u32; ROOM];
    shrink_in(form, words, target, &mut room, &mut output, file, text)
}

// The whole cut, on the bytes of a file.
pub fn shrink(form: Form, bytes: &[u8], target: Target, file: &mut [u8], text: &mut [u8]) -> Ends
    ensures { Shrinks (done form (cut target.keep target.as_is (aim_of target)) bytes.now (length file.old)) file.old file.new text.old text.new result.file result.text }
{
    let mut words = [0u32; MAX_WORDS];
    match read_form(form, bytes, &mut words) {
        Ok(nodes) => shrink_diagram(form, &words[..3 * nodes], target, file, text),
        Err(refused) => refuse(text, refused),
    }
}
