// One node of a judged plan: its value is worked out and put behind the values of the nodes before it.
ghost use Rattle.std.specs.Prelude.{◌≡◌, true, ◌≤◌, ◌<◌, length, get_or};
ghost use Rattle.relations.specs.Limits.{plan_node_words};
ghost use Rattle.relations.specs.Columns as meaning;
ghost use Rattle.relations.specs.Operations.{load_candidates, select_constant_candidates, select_attribute_candidates};
ghost use Rattle.relations.specs.PlanWords.{read_node};
ghost use Rattle.catalogue.specs.Judging.{tables_ok};
ghost use Rattle.values.specs.Words.{rows_of, end};
ghost use Rattle.values.specs.Building.{Builds, Blank, Makes};
ghost use Rattle.terms.specs.Terms.{attribute_in, constant_in};
ghost use Rattle.relations.specs.Comparison.{operator_named};
ghost use Rattle.catalogue.specs.Stored.{relations_of, columns_of, stored_tables};
ghost use Rattle.plan_reading.specs.Judging.{legal_read};
ghost use Rattle.node_values.specs.Standing.{no_value, value_named, widths_of, standing, Stand};
ghost use Rattle.node_values.specs.NodeRun.{width_read, candidates_read, Runs, NodeRun};

use catalogue::stored::{columns_of, rows_of, start_of};
use division::divide::divide;
use joining::join::join;
use operations::columns::triple_at;
use operations::copy::unite;
use operations::keep::{intersect, select_attribute, select_constant, subtract};
use ordering::sorted::{load, project};
use plan_reading::legal::width_between;
use plan_reading::nodes::{Operation, PlanNode, decode_node};
use relations::heavy::weight;
use relations::limits::HEAD_WORDS;
use semijoins::keyed::{antijoin, semijoin};
use tallying::tally;
use terms::attribute::Attribute;
use terms::constant::Constant;
use terms::operator::Operator;
use values::clearing::finish;
use values::rows::Value;

// A node's value, and 1 where its operation is heavy, else 0.
#[derive(Clone, Copy)]
pub struct Made {
    pub value: Value,
    pub heavy: usize,
}

pub const NO_VALUE: Value = Value {
    base: 0,
    rows: 0,
    width: 0,
};

// The value of an earlier node; of any other number one without rows.
fn value_at(values: &[Value], place: usize) -> Value
    ensures { result ≡ value_named values.now place }
{
    values.get(place).copied().unwrap_or(NO_VALUE)
}

// Operation 1, by the relation's number.
fn load_relation(
    catalogue: &[u32],
    tables: &[u32],
    relation: usize,
    work: &mut [u32],
    out: usize,
) -> Option<usize>
    requires { (tables_ok catalogue.now tables.now ≡ true) × (relation < relations_of catalogue.now) × (out ≤ length work.old) × Blank out work.old }
    ensures { Makes (columns_of catalogue.now relation) out (load_candidates (stored_tables catalogue.now tables.now relation)) work.old work.new result }
{
    let base = start_of(catalogue, relation);
    let rows = rows_of(catalogue, relation) as usize;
    let width = columns_of(catalogue, relation) as usize;
    load(tables, work, Value { base, rows, width }, out)
}

// An attribute's number and a constant, as the words of a list have them.
fn attribute_at(list: &[u32], place: usize) -> Attribute
    requires { place < length list.now }
    ensures { attribute_in result ≡ meaning.attribute (get_or list.now place 0) }
{
    Attribute(list[place])
}

fn constant_at(list: &[u32], place: usize) -> Constant
    requires { place < length list.now }
    ensures { constant_in result ≡ meaning.constant (get_or list.now place 0) }
{
    Constant(list[place])
}

// Operation 3, by the words of its list.
fn select_by_constant(list: &[u32], work: &mut [u32], left: Value, out: usize) -> Option<usize>
    requires { (3 ≤ length list.now) × (0 < left.width) × (end left ≤ out) × (out ≤ length work.old) }
    ensures { Builds left.width out 0 (select_constant_candidates (meaning.attribute (get_or list.now 0 0)) (operator_named (get_or list.now 1 0)) (meaning.constant (get_or list.now 2 0)) (rows_of left work.old)) work.old work.new result }
{
    let attribute = attribute_at(list, 0);
    let code = list[1];
    let operator = Operator::from(code);
    let constant = constant_at(list, 2);
    select_constant(work, left, attribute, operator, constant, out)
}

// Operation 4, by the words of its list.
fn select_by_attribute(list: &[u32], work: &mut [u32], left: Value, out: usize) -> Option<usize>
    requires { (3 ≤ length list.now) × (0 < left.width) × (end left ≤ out) × (out ≤ length work.old) }
    ensures { Builds left.width out 0 (select_attribute_candidates (meaning.attribute (get_or list.now 0 0)) (operator_named (get_or list.now 1 0)) (meaning.attribute (get_or list.now 2 0)) (rows_of left work.old)) work.old work.new result }
{
    let triple = triple_at(list, 0);
    let operator = triple.operator;
    select_attribute(work, left, triple.left, operator, triple.right, out)
}

// The value of a decoded node, from `out` on.
fn make_value(
    catalogue: &[u32],
    tables: &[u32],
    node: PlanNode,
    words: &[u32],
    work: &mut [u32],
    values: &[Value],
    out: usize,
) -> Option<usize>
    requires { Runs catalogue.now tables.now words.now node values.now out work.old }
    ensures { Makes (width_read (columns_of catalogue.now) (widths_of values.now) (read_node words.now)) out (candidates_read (stored_tables catalogue.now tables.now) (standing values.now work.old) (read_node words.now)) work.old work.new result }
{
    let count = node.count;
    let list = &words[HEAD_WORDS..];
    let left = value_at(values, node.left);
    let right = value_at(values, node.right);
    match node.operation {
        Operation::Load => load_relation(catalogue, tables, node.left, work, out),
        Operation::Project => project(list, count, work, left, out),
        Operation::SelectConstant => finish(select_by_constant(list, work, left, out), work, out),
        Operation::SelectAttribute => finish(select_by_attribute(list, work, left, out), work, out),
        Operation::Join => finish(join(list, count, work, left, right, out), work, out),
        Operation::Semijoin => semijoin(list, count, work, left, right, out),
        Operation::Antijoin => antijoin(list, count, work, left, right, out),
        Operation::Divide => finish(divide(list, count, work, left, right, out), work, out),
        Operation::Unite => unite(work, left, right, out),
        Operation::Intersect => finish(intersect(work, left, right, out), work, out),
        Operation::Subtract => finish(subtract(work, left, right, out), work, out),
        Operation::Tally => finish(tally(work, list[0] as usize, left, right, out), work, out),
    }
}

// A legal node, by its words; none where its value has no room. Words that are no node do not come up: the plan was judged.
pub fn run_node(
    catalogue: &[u32],
    tables: &[u32],
    words: &[u32],
    work: &mut [u32],
    values: &[Value],
    out: usize,
) -> Option<Made>
    requires { (length words.now ≡ plan_node_words) × (tables_ok catalogue.now tables.now ≡ true) × (legal_read (relations_of catalogue.now) (widths_of values.now) (read_node words.now) ≡ true) × Stand values.now out work.old }
    ensures { NodeRun catalogue.now tables.now (read_node words.now) (widths_of values.now) (standing values.now work.old) out work.old work.new result }
{
    let node = decode_node(words)?;
    let heavy = weight(words[0]) as usize;
    let left = value_at(values, node.left).width;
    let beside = value_at(values, node.right).width;
    let width = width_between(catalogue, node, left, beside);
    let rows = make_value(catalogue, tables, node, words, work, values, out)?;
    let value = Value {
        base: out,
        rows,
        width,
    };
    Some(Made { value, heavy })
}
