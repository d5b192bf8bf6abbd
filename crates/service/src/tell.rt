// Telling an answer, and how its line counts.
ghost use Rattle.std.specs.Prelude.{◌≡◌, IfOk, Some};
ghost use Rattle.answers.specs.Answers.{told_answer};
ghost use Rattle.service.specs.Runs.{Tells, outcome_of};

use answers::answer::Answer;
use answers::line::write_answer;
use std::alloc::AllocError;

// How a line counts.
#[derive(Clone, Copy)]
pub(crate) enum Outcome {
    Silent,
    Answered,
    Refused,
    Mistaken,
}

fn outcome_of(answer: Answer<'_>) -> Outcome
    ensures { result ≡ outcome_of (told_answer answer.entry) }
{
    match answer {
        Answer::Refusal(_, _) => Outcome::Refused,
        Answer::Error(_) => Outcome::Mistaken,
        _ => Outcome::Answered,
    }
}

// Adds the answer to line `number`; how the line counts. (The number and what is written to stay two parameters: a struct
// of the two would be taken apart in each of the three functions that pass them on.)
pub(crate) fn tell(
    number: u64,
    answer: Answer<'_>,
    out: &mut Vec<u8>,
) -> Result<Outcome, AllocError>
    ensures { IfOk result (Tells out.old.items number (Some (told_answer answer.entry)) out.new.items) }
{
    write_answer(number, answer, out)?;
    Ok(outcome_of(answer))
}
