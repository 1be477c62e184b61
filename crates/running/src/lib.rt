// A plan from anyone, judged and run over lent tables.
#![tactic(auto)]

ghost use Rattle.std.specs.Prelude.{◌≡◌, true, Ok, length, replicate};
ghost use Rattle.catalogue.specs.Judging.{tables_ok};
ghost use Rattle.plan_reading.specs.Judging.{plan_judgement, nodes_of_plan};
ghost use Rattle.values.specs.Building.{Blank};
ghost use Rattle.running.specs.RunCall.{run_status, run_place, run_numbers, run_outcome, capacity_of, fit_within, ran_outcome};
ghost use Rattle.running.specs.PlanRun.{PlanRun};
ghost use Rattle.running.specs.declared.RunRefusal.TheVariants.{IllegalPlan};

use catalogue::judging::tables_ok;
use node_values::node::{NO_VALUE, run_node};
use plan_reading::judging::{IllegalNode, judge_plan};
use relations::limits::{PLAN_NODE_WORDS, PLAN_NODES, WORDS};
use values::clearing::clear_from;
use values::placing::write_row;
use values::rows::Value;

// What a run of a plan took, and the size of its answer.
#[derive(Clone, Copy, PartialEq, Eq)]
pub struct Done {
    pub nodes: usize,
    pub heavy: usize,
    pub room: usize,
    pub width: usize,
    pub rows: usize,
}

// Why a plan is not run, or its answer not handed out, and at which node.
#[derive(Clone, Copy, PartialEq, Eq)]
pub enum RunRefusal {
    WrongTables,
    IllegalPlan(usize),
    NoRoom(usize),
    LongAnswer(usize),
}

impl RunRefusal {
    // Its number in document 01.
    pub fn status(self) -> u32
        ensures { result ≡ run_status self }
    {
        match self {
            RunRefusal::WrongTables => 7,
            RunRefusal::IllegalPlan(_) => 9,
            RunRefusal::NoRoom(_) => 10,
            RunRefusal::LongAnswer(_) => 11,
        }
    }

    pub fn place(self) -> usize
        ensures { result ≡ run_place self }
    {
        match self {
            RunRefusal::WrongTables => 0,
            RunRefusal::IllegalPlan(node)
            | RunRefusal::NoRoom(node)
            | RunRefusal::LongAnswer(node) => node,
        }
    }
}

impl From<IllegalNode> for RunRefusal {
    ghost from_gives = { λ illegal refusal. refusal ≡ IllegalPlan illegal.0 };

    fn from(illegal: IllegalNode) -> RunRefusal
        ensures { result ≡ RunRefusal.IllegalPlan illegal.0 }
    {
        RunRefusal::IllegalPlan(illegal.0)
    }
}

// The answer of a plan whose values all have room, and what it took.
#[derive(Clone, Copy)]
pub struct Worked {
    pub value: Value,
    pub heavy: usize,
    pub room: usize,
}

// The nodes of a legal plan one after another, each value behind the one before it. All of the work area is room.
fn run_nodes(
    catalogue: &[u32],
    tables: &[u32],
    plan: &[u32],
    nodes: usize,
    work: &mut [u32],
) -> Result<Worked, RunRefusal>
    requires { (tables_ok catalogue.now tables.now ≡ true) × (plan_judgement catalogue.now plan.now ≡ Ok nodes) × Blank 0 work.old }
    ensures { PlanRun catalogue.now tables.now (nodes_of_plan plan.now) work.new result }
{
    let mut values = [NO_VALUE; PLAN_NODES];
    let mut heavy = 0;
    let mut out = 0;
    for (place, words) in plan.chunks_exact(PLAN_NODE_WORDS).enumerate() {
        let made = run_node(catalogue, tables, words, work, &values[..place], out).ok_or(
            RunRefusal::NoRoom(place),
        )?;
        values[place] = made.value;
        out += made.value.rows * made.value.width;
        heavy += made.heavy;
    }
    Ok(Worked {
        value: values[nodes - 1],
        heavy,
        room: out,
    })
}

// A legal plan run in the work area, and its answer handed out.
fn hand_out(
    catalogue: &[u32],
    tables: &[u32],
    plan: &[u32],
    nodes: usize,
    work: &mut [u32],
    output: &mut [u32],
) -> Result<Done, RunRefusal>
    requires { (tables_ok catalogue.now tables.now ≡ true) × (plan_judgement catalogue.now plan.now ≡ Ok nodes) × Blank 0 work.old }
    ensures { record { numbers = run_numbers result; work = work.new; output = output.new } ≡ ran_outcome catalogue.now tables.now (nodes_of_plan plan.now) work.new output.old (fit_within catalogue.now tables.now (nodes_of_plan plan.now) (length work.old)) }
{
    let worked = run_nodes(catalogue, tables, plan, nodes, work)?;
    let Value { base, rows, width } = worked.value;
    let words = rows * width;
    if output.len() < words {
        return Err(RunRefusal::LongAnswer(nodes - 1));
    }
    write_row(work, output, false, base, words, 0);
    Ok(Done {
        nodes,
        heavy: worked.heavy,
        room: worked.room,
        width,
        rows,
    })
}

// The words of the work area are 0 when running starts, and all of them are 0 afterwards, whatever the outcome.
fn run_legal(
    catalogue: &[u32],
    tables: &[u32],
    plan: &[u32],
    nodes: usize,
    work: &mut [u32],
    output: &mut [u32],
) -> Result<Done, RunRefusal>
    requires { (tables_ok catalogue.now tables.now ≡ true) × (plan_judgement catalogue.now plan.now ≡ Ok nodes) }
    ensures { record { numbers = run_numbers result; work = work.new; output = output.new } ≡ ran_outcome catalogue.now tables.now (nodes_of_plan plan.now) (replicate (length work.old) 0) output.old (fit_within catalogue.now tables.now (nodes_of_plan plan.now) (length work.old)) }
{
    clear_from(work, 0);
    let ran = hand_out(catalogue, tables, plan, nodes, work, output);
    clear_from(work, 0);
    ran
}

// The work area's length, at most the word limit.
fn capacity_of(work: &[u32]) -> usize
    ensures { result ≡ capacity_of work.now }
{
    work.len().min(WORDS)
}

// The buffers stay parameters of their own: `run_outcome` and the C interface (desk_c) name each of them.
pub fn run(
    catalogue: &[u32],
    tables: &[u32],
    plan: &[u32],
    work: &mut [u32],
    output: &mut [u32],
) -> Result<Done, RunRefusal>
    ensures { record { numbers = run_numbers result; work = work.new; output = output.new } ≡ run_outcome catalogue.now tables.now plan.now work.old output.old }
{
    if !tables_ok(catalogue, tables) {
        return Err(RunRefusal::WrongTables);
    }
    let nodes = judge_plan(catalogue, plan)?;
    let capacity = capacity_of(work);
    run_legal(
        catalogue,
        tables,
        plan,
        nodes,
        &mut work[..capacity],
        output,
    )
}
