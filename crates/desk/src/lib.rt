// The desk: a question answered. Read specs/ beside document 01, "Refusal numbers" and its examples, then proofs/.
#![tactic(auto)]

ghost use Rattle.std.specs.Prelude.{◌≡◌};
ghost use Rattle.translation.specs.TranslateCall.{translate_status, translate_place};
ghost use Rattle.running.specs.RunCall.{run_numbers};
ghost use Rattle.running.specs.RunBounds.{Bounded};
ghost use Rattle.desk.specs.AnswerCall.{answer_numbers, answer_outcome};

use catalogue::judging::tables_ok;
use relations::limits::PLAN_NODE_WORDS;
use running::{Done, RunRefusal, run};
use translation::call::{NotTranslated, translate};

pub mod console;

// The results of an answer, as document 01 lists them: what the plan took, and the size of the answer.
#[derive(Clone, Copy)]
pub struct Results {
    pub nodes: u32,
    pub heavy: u32,
    pub room: u32,
    pub width: u32,
    pub rows: u32,
}

// A refusal as the desk's callers are told it, whatever it was: its number in document 01, and its place. Numbers, since the C interface hands these out.
#[derive(Clone, Copy)]
pub struct Refusal {
    pub status: u32,
    pub place: u32,
}

impl From<NotTranslated> for Refusal {
    ghost from_gives = { λ refused told. told ≡ record { status = translate_status refused; place = translate_place refused } };

    fn from(refused: NotTranslated) -> Refusal {
        Refusal {
            status: refused.status(),
            place: refused.place(),
        }
    }
}

// What running a plan tells, in the numbers that the desk's callers are told.
fn answer_of(ran: Result<Done, RunRefusal>) -> Result<Results, Refusal>
    requires { Bounded (run_numbers ran) }
    ensures { answer_numbers result ≡ run_numbers ran }
{
    match ran {
        Ok(done) => Ok(Results {
            nodes: done.nodes as u32,
            heavy: done.heavy as u32,
            room: done.room as u32,
            width: done.width as u32,
            rows: done.rows as u32,
        }),
        Err(refusal) => Err(Refusal {
            status: refusal.status(),
            place: refusal.place() as u32,
        }),
    }
}

// A question translated, and its plan run from the front of the plan buffer, where it stays.
pub fn answer(
    catalogue: &[u32],
    tables: &[u32],
    question: &[u32],
    mode: u32,
    plan: &mut [u32],
    work: &mut [u32],
    output: &mut [u32],
) -> Result<Results, Refusal>
    ensures { record { numbers = answer_numbers result; plan = plan.new; work = work.new; output = output.new } ≡ answer_outcome catalogue.now tables.now question.now mode plan.old work.old output.old }
{
    if !tables_ok(catalogue, tables) {
        return answer_of(Err(RunRefusal::WrongTables));
    }
    let translated = translate(catalogue, question, mode, plan)?;
    let words = translated.nodes as usize * PLAN_NODE_WORDS;
    answer_of(run(catalogue, tables, &plan[..words], work, output))
}
