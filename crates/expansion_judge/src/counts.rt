//! The nodes of expressions, where references of statement functions are expanded. Numbers past the most nodes that may be count as one more
//! than that.
#![tactic(auto)]

ghost use Rattle.std.specs.Prelude.{◌≡◌, ◌||◌, map, nat_lt, option_map};
ghost use Rattle.declaration_rows.specs.ExpansionRows.{most_nodes};
ghost use Rattle.name_table.specs.Named.{value_of};
ghost use Rattle.expansion_judge.specs.NodesCounted as spec;

use f_tree::Expr;
use name_table::NameTable;
use plain_data::Boxed;

/// The most nodes of an expanded reference.
const MOST_NODES: usize = 10_000;

/// The nodes of an expression, and whether a reference in it expands to too many.
#[derive(Clone, Copy, Debug, PartialEq, Eq)]
pub(crate) struct Counted {
    pub count: usize,
    pub past: bool,
}

/// A sum of nodes.
#[tactic(auto, unfolding(crate::specs::NodesCounted::capped_sum))]
fn capped_sum(one: usize, other: usize) -> usize
    ensures { result ≡ spec.capped_sum one other }
{
    one.saturating_add(other).min(MOST_NODES + 1)
}

/// A node that has no part.
#[tactic(auto, unfolding(crate::specs::NodesCounted::one_node))]
fn one_node() -> Counted
    ensures { result ≡ spec.one_node }
{
    Counted {
        count: 1,
        past: false,
    }
}

/// Nodes with those of a part.
#[tactic(auto, unfolding(crate::specs::NodesCounted::with_part))]
fn with_part(so_far: Counted, part: Counted) -> Counted
    ensures { result ≡ spec.with_part so_far part }
{
    Counted {
        count: capped_sum(so_far.count, part.count),
        past: so_far.past || part.past,
    }
}

/// Nodes with those of a part that may be left out.
#[tactic(auto, unfolding(crate::specs::NodesCounted::with_option))]
fn with_option(so_far: Counted, part: Option<Counted>) -> Counted
    ensures { result ≡ spec.with_option so_far part }
{
    match part {
        Some(part) => with_part(so_far, part),
        None => so_far,
    }
}

/// The nodes of a substring.
#[tactic(auto, unfolding(crate::specs::NodesCounted::part_counted))]
fn with_places(base: Counted, from: Option<Counted>, to: Option<Counted>) -> Counted
    ensures { result ≡ spec.part_counted base from to }
{
    with_option(with_option(with_part(one_node(), base), from), to)
}

/// Whether so many nodes are too many.
#[tactic(auto, unfolding(declaration_rows::specs::ExpansionRows::most_nodes))]
fn is_past(count: usize) -> bool
    ensures { result ≡ nat_lt most_nodes count }
{
    MOST_NODES < count
}

/// The nodes of a name with a list, which may be that of a statement function with so many nodes.
#[tactic(auto, unfolding(crate::specs::NodesCounted::expanded))]
fn expanded(nodes: Option<usize>, list: Counted) -> Counted
    ensures { result ≡ spec.expanded nodes list }
{
    match nodes {
        Some(nodes) => {
            let count = capped_sum(list.count, nodes);
            Counted {
                count,
                past: list.past || is_past(count),
            }
        }
        None => list,
    }
}

/// The nodes of an expression, given those of the statement functions.
#[cycle(count)]
#[tactic(auto, using(crate::proofs::CountForms::count_forms))]
pub(crate) fn count_nodes(functions: &NameTable<usize>, e: &Expr) -> Counted
    ensures { result ≡ spec.count_by functions.now e.now }
{
    match e {
        Expr::Int(_) | Expr::Logical(_) | Expr::Text(_) | Expr::Name(_) => one_node(),
        Expr::AltReturn(_) | Expr::Bound(_) => one_node(),
        Expr::Apply(name, es) => applied(functions, name.as_slice(), es.as_slice()),
        Expr::Part(base, from, to) => with_places(
            count_nodes(functions, base.get()),
            count_place(functions, from),
            count_place(functions, to),
        ),
        Expr::Minus(operand) | Expr::Plus(operand) => {
            with_part(one_node(), count_nodes(functions, operand.get()))
        }
        Expr::Not(operand) | Expr::Paren(operand) => {
            with_part(one_node(), count_nodes(functions, operand.get()))
        }
        Expr::Binary(_, left, right) => with_part(
            with_part(one_node(), count_nodes(functions, left.get())),
            count_nodes(functions, right.get()),
        ),
        Expr::Bind(es, body) => count_list(
            functions,
            with_part(one_node(), count_nodes(functions, body.get())),
            es.as_slice(),
        ),
    }
}

/// The nodes of a name with a list.
#[cycle(count)]
fn applied(functions: &NameTable<usize>, name: &[u8], es: &[Expr]) -> Counted
    ensures { result ≡ spec.expanded (value_of functions.now name.now) (spec.onward spec.one_node (map (spec.count_by functions.now) es.now)) }
{
    expanded(functions.get(name), count_list(functions, one_node(), es))
}

/// The nodes of the first or the last place of a substring.
#[cycle(count)]
fn count_place(functions: &NameTable<usize>, place: &Option<Boxed<Expr>>) -> Option<Counted>
    ensures { result ≡ option_map (spec.count_by functions.now) place.now }
{
    match place {
        Some(e) => Some(count_nodes(functions, e.get())),
        None => None,
    }
}

/// Nodes with those of expressions.
#[cycle(count)]
fn count_list(functions: &NameTable<usize>, before: Counted, es: &[Expr]) -> Counted
    ensures { result ≡ spec.onward before (map (spec.count_by functions.now) es.now) }
{
    let mut counted = before;
    for e in es {
        counted = with_part(counted, count_nodes(functions, e));
    }
    counted
}
