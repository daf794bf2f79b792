// The whole text for an input: refusal 16, or the decision's answer or refusal, with the ceiling and the path.
ghost use Rattle.std.specs.Prelude.{◌≤◌, ◌≡◌, length, take, IfOk};
ghost use Rattle.calls.specs.Promise.{room_steps};
ghost use Rattle.printed.specs.Lines.{text_for};
ghost use Rattle.printed.specs.Printed.{Printed};

use crate::lines::{LINE_MOST, STEP_MOST};
use crate::put;
use crate::split::{QUERY_WIDTH, split};
use calls::Answer;
use calls::ceiling::ceiling;
use calls::decide::ROOM_STEPS;
use calls::decide_words::decide;
use records::{RECORDS, Refusal, TERMS};

// The most bytes of a text: one line, and a full room of steps.
pub const TEXT_MOST: usize = LINE_MOST + STEP_MOST * ROOM_STEPS;

// The text for an input.
pub type Text = put::Text<TEXT_MOST>;

// The answer to an input and its ceiling, with the path in the room, or why it is refused. An input that is answered has a ceiling.
// The rule is handed on as the part of the input that starts where the site's records end.
fn answer(input: &[u8], room: &mut [u16; 3 * ROOM_STEPS]) -> Result<(Answer, usize), Refusal>
    ensures said { Printed input.now (text_for result room.new) }
    ensures few { IfOk result (λ x. x.0.steps ≤ room_steps) }
{
    let parts = split(input)?;
    let ahead = &input[..input.len() - QUERY_WIDTH];
    let (site, rule) = ahead.split_at(parts.rule);
    let mut asked = [0; RECORDS * TERMS];
    let mut numbers = [0; RECORDS * TERMS];
    let answer = decide(
        site,
        rule,
        parts.start,
        parts.end,
        &mut asked,
        &mut numbers,
        room,
    )?;
    let most = ceiling(site, rule)?;
    Ok((answer, most))
}

// What the program prints for an input.
#[tactic(auto, unfolding(crate::specs::Lines::line_most, crate::specs::Lines::step_most, calls::specs::Promise::room_steps))]
pub fn print(input: &[u8]) -> Text
    ensures { Printed input.now (take result.count result.bytes) × (result.count ≤ length result.bytes) }
{
    let mut room = [0; 3 * ROOM_STEPS];
    let mut text = Text::new();
    match answer(input, &mut room) {
        Ok((answer, most)) => {
            text.put_answer(answer, most);
            text.put_steps(&room, answer.steps);
        }
        Err(refusal) => text.put_refused(refusal),
    }
    text
}
