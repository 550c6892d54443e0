// One line of input on the monitor: what it says is done and answered; what is not readable is `no 11`, and changes nothing.
#![tactic(auto)]

ghost use Rattle.std.specs.Prelude.{◌≡◌, List, [], ℕ, ◌≤◌, length, take};
ghost use Rattle.std.proofs.lemmas.List.Edits.{sets};
ghost use Rattle.lines.specs.Grammar.{payload_room};
ghost use Rattle.gather.specs.Lines.{ended_lines};
ghost use Rattle.decide.specs.Allowed.{out_of};
ghost use Rattle.desk.specs.Heard.{heard};
ghost use Rattle.desk.specs.Served.{answered_in, unasked, standing_of};
ghost use Rattle.desk.specs.Session.{Faithful, Thorough};

use events::{Answer, Refusal};
use state::State;
use touch::Stepped;

// The payload's room is scratch space: what it holds afterwards has no meaning.
pub fn hear(
    line: &[u8],
    s: State,
    payload: &mut [u8],
    memory: &mut [u8],
    buffer: &mut [u8],
) -> Stepped
    requires { payload_room ≤ length payload.old }
    ensures { out_of result memory.new buffer.new ≡ heard s memory.old line.now buffer.old }
{
    let Some(said) = lines::read_line(line, payload) else {
        return Stepped {
            answer: Answer::Refused(Refusal::Unreadable),
            state: s,
        };
    };
    monitor::step(said.event, &payload[..said.length], s, memory, buffer)
}

// Where the lines of a text have led: the state, how far the text is heard, and how many characters the answers have.
#[derive(Clone, Copy)]
pub struct Desk {
    pub state: State,
    pub at: usize,
    pub used: usize,
}

// Each line that ends in a text is heard and its answer printed, one after another, as long as the output has room for any answer.
pub fn serve(
    text: &[u8],
    s: State,
    payload: &mut [u8],
    memory: &mut [u8],
    buffer: &mut [u8],
    out: &mut [u8],
) -> Desk
    requires { payload_room ≤ length payload.old }
    ensures out_after { standing_of result memory.new buffer.new (take result.used out.new) ≡ answered_in (length out.old) (ended_lines [] text.now) (unasked s memory.old buffer.old) }
    ensures at_in_bounds { (result.at ≤ length text.now) × (result.used ≤ length out.old) }
{
    let mut state = s;
    let mut at = 0;
    let mut used = 0;
    let mut end = gather::line_end(text);
    // No chain over the lines: how far it goes hangs on the room that the answers have left.
    while (end < text.len()) & (answers::LONGEST_TEXT <= out.len() - used) {
        let stepped = hear(&text[at..end], state, payload, memory, buffer);
        let answer = stepped.answer;
        used += answers::say(answer, buffer, &mut out[used..]);
        state = stepped.state;
        at = end + 1;
        end = at + gather::line_end(&text[at..]);
    }
    Desk { state, at, used }
}

// What is written is what the input as a whole is answered, however it is cut and read.
pub fn faithful()
    ensures { Faithful }
{}

// Where nothing is printed, every line is heard.
pub fn thorough()
    ensures { Thorough }
{}
