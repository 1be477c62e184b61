// The desk for a program in C: what include/desk.h declares. Each call is the function of its name in the crate desk, with the same contract.
#![tactic(auto)]

ghost use Rattle.std.specs.Prelude.{◌≡◌};
ghost use Rattle.translation.specs.TranslateCall.{translate_outcome};
ghost use Rattle.running.specs.RunCall.{run_outcome};
ghost use Rattle.desk.specs.AnswerCall.{answer_outcome};

use desk::console;

#[unsafe(no_mangle)]
pub extern "C" fn desk_translate(
    catalogue: &[u32],
    question: &[u32],
    mode: u32,
    plan: &mut [u32],
    place: &mut u32,
    nodes: &mut u32,
    heavy: &mut u32,
) -> u32
    ensures { record { numbers = record { status = result; place = place.new; nodes = nodes.new; heavy = heavy.new }; plan = plan.new } ≡ translate_outcome catalogue.now question.now mode plan.old }
{
    console::desk_translate(catalogue, question, mode, plan, place, nodes, heavy)
}

#[unsafe(no_mangle)]
pub extern "C" fn desk_run(
    catalogue: &[u32],
    tables: &[u32],
    plan: &[u32],
    work: &mut [u32],
    output: &mut [u32],
    place: &mut u32,
    nodes: &mut u32,
    heavy: &mut u32,
    room: &mut u32,
    width: &mut u32,
    rows: &mut u32,
) -> u32
    ensures { record { numbers = record { status = result; place = place.new; nodes = nodes.new; heavy = heavy.new; room = room.new; width = width.new; rows = rows.new }; work = work.new; output = output.new } ≡ run_outcome catalogue.now tables.now plan.now work.old output.old }
{
    console::desk_run(
        catalogue, tables, plan, work, output, place, nodes, heavy, room, width, rows,
    )
}

#[unsafe(no_mangle)]
pub extern "C" fn desk_answer(
    catalogue: &[u32],
    tables: &[u32],
    question: &[u32],
    mode: u32,
    plan: &mut [u32],
    work: &mut [u32],
    output: &mut [u32],
    place: &mut u32,
    nodes: &mut u32,
    heavy: &mut u32,
    room: &mut u32,
    width: &mut u32,
    rows: &mut u32,
) -> u32
    ensures { record { numbers = record { status = result; place = place.new; nodes = nodes.new; heavy = heavy.new; room = room.new; width = width.new; rows = rows.new }; plan = plan.new; work = work.new; output = output.new } ≡ answer_outcome catalogue.now tables.now question.now mode plan.old work.old output.old }
{
    console::desk_answer(
        catalogue, tables, question, mode, plan, work, output, place, nodes, heavy, room, width,
        rows,
    )
}
