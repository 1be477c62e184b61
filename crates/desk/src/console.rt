// The desk for a program in C: the three calls of include/desk.h, which the crate desk_c exports.
ghost use Rattle.std.specs.Prelude.{◌≡◌};
ghost use Rattle.translation.specs.TranslateCall.{translate_outcome};
ghost use Rattle.running.specs.RunCall.{run_outcome};
ghost use Rattle.desk.specs.AnswerCall.{answer_numbers, answer_outcome};

use crate::{Refusal, Results, answer, answer_of};
use running::run;
use translation::call::translate;

// A call's numbers to where they are lent, as the C interface has them; its status is the answer. A number that the call doesn't have is 0.
fn report(
    answered: Result<Results, Refusal>,
    place: &mut u32,
    nodes: &mut u32,
    heavy: &mut u32,
    room: &mut u32,
    width: &mut u32,
    rows: &mut u32,
) -> u32
    ensures { record { status = result; place = place.new; nodes = nodes.new; heavy = heavy.new; room = room.new; width = width.new; rows = rows.new } ≡ answer_numbers answered }
{
    *place = 0;
    *nodes = 0;
    *heavy = 0;
    *room = 0;
    *width = 0;
    *rows = 0;
    match answered {
        Ok(answer) => {
            *nodes = answer.nodes;
            *heavy = answer.heavy;
            *room = answer.room;
            *width = answer.width;
            *rows = answer.rows;
            0
        }
        Err(refusal) => {
            *place = refusal.place;
            refusal.status
        }
    }
}

pub fn desk_translate(
    catalogue: &[u32],
    question: &[u32],
    mode: u32,
    plan: &mut [u32],
    place: &mut u32,
    nodes: &mut u32,
    heavy: &mut u32,
) -> u32
    ensures { record { numbers = record { status = result; place = place.new; nodes = nodes.new; heavy = heavy.new }; plan = plan.new } ≡ translate_outcome catalogue.now question.now mode plan.old }
{
    let translated = translate(catalogue, question, mode, plan);
    *place = 0;
    *nodes = 0;
    *heavy = 0;
    match translated {
        Ok(written) => {
            *nodes = written.nodes;
            *heavy = written.heavy;
            0
        }
        Err(refusal) => {
            *place = refusal.place();
            refusal.status()
        }
    }
}

pub fn desk_run(
    catalogue: &[u32],
    tables: &[u32],
    plan: &[u32],
    work: &mut [u32],
    output: &mut [u32],
    place: &mut u32,
    nodes: &mut u32,
    heavy: &mut u32,
    room: &mut u32,
    width: &mut u32,
    rows: &mut u32,
) -> u32
    ensures { record { numbers = record { status = result; place = place.new; nodes = nodes.new; heavy = heavy.new; room = room.new; width = width.new; rows = rows.new }; work = work.new; output = output.new } ≡ run_outcome catalogue.now tables.now plan.now work.old output.old }
{
    let ran = run(catalogue, tables, plan, work, output);
    report(answer_of(ran), place, nodes, heavy, room, width, rows)
}

pub fn desk_answer(
    catalogue: &[u32],
    tables: &[u32],
    question: &[u32],
    mode: u32,
    plan: &mut [u32],
    work: &mut [u32],
    output: &mut [u32],
    place: &mut u32,
    nodes: &mut u32,
    heavy: &mut u32,
    room: &mut u32,
    width: &mut u32,
    rows: &mut u32,
) -> u32
    ensures { record { numbers = record { status = result; place = place.new; nodes = nodes.new; heavy = heavy.new; room = room.new; width = width.new; rows = rows.new }; plan = plan.new; work = work.new; output = output.new } ≡ answer_outcome catalogue.now tables.now question.now mode plan.old work.old output.old }
{
    let answered = answer(catalogue, tables, question, mode, plan, work, output);
    report(answered, place, nodes, heavy, room, width, rows)
}
