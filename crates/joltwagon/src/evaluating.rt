// The values of nodes and labels, and moving labels.
ghost use Rattle.std.specs.Prelude.{◌≡◌, length};
ghost use Rattle.answers.specs.Said.{refusal_of, cells_after};
ghost use Rattle.expressions.specs.Answers.{node_answers, label_answer};
ghost use Rattle.expressions.specs.Moving.{moved_table};
ghost use Rattle.joltwagon.specs.Evaluating.{evaluated_said, value_said};

use answers::hand;

// Both values of a node at a location: 17 first, then 11 before 10.
#[unsafe(no_mangle)]
pub extern "C" fn jw_node(
    nodes: &[u16],
    labels: &[u16],
    node: u16,
    location: u16,
    answer: &mut [u16],
) -> u8
    ensures value { result ≡ refusal_of (evaluated_said (node_answers nodes.now labels.now node location)) (length answer.old) }
    ensures answer_after { answer.new ≡ cells_after (evaluated_said (node_answers nodes.now labels.now node location)) answer.old }
{
    match expressions::node_pair(nodes, labels, node, location) {
        Ok(found) => {
            let unsigned = found.unsigned;
            let signed = found.signed;
            let cells = [
                unsigned.number,
                unsigned.width as u16,
                signed.number,
                signed.width as u16,
            ];
            hand(0, &cells, answer)
        }
        Err(why) => hand(why.number(), &[], answer),
    }
}

// The value of a label, as stored in its width.
#[unsafe(no_mangle)]
pub extern "C" fn jw_label(nodes: &[u16], labels: &[u16], label: u16, answer: &mut [u16]) -> u8
    ensures value { result ≡ refusal_of (value_said (label_answer nodes.now labels.now label)) (length answer.old) }
    ensures answer_after { answer.new ≡ cells_after (value_said (label_answer nodes.now labels.now label)) answer.old }
{
    match expressions::label_value(nodes, labels, label) {
        Ok(value) => {
            let cells = [value.number, value.width as u16];
            hand(0, &cells, answer)
        }
        Err(why) => hand(why.number(), &[], answer),
    }
}

// Moves each label whose address lies from `left` to `right`, both ends counted, on by `by`, modulo 65536. Nothing is refused.
#[unsafe(no_mangle)]
pub extern "C" fn jw_move_labels(labels: &mut [u16], left: u16, right: u16, by: u16)
    ensures { labels.new ≡ moved_table left right by labels.old }
{
    expressions::moving::move_labels(labels, left, right, by);
}
