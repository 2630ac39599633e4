//! The functor `count`, which sets its context object's `y` to how often its connection has called it.
ghost use Rattle.std.specs.Prelude.{◌≡◌, List, IfOk};
ghost use Rattle.term_core.specs.Term as term;
ghost use Rattle.term_evaluation.specs.Stating.{after, with_state};
ghost use Rattle.term_evaluation.specs.Unfolding.{unfolded_body};
ghost use Rattle.variant_value.specs.declared.value.Value.{Value as ValueSeen};
ghost use Rattle.command_line.specs.Count.{Counts, count_body, counted, one_more};

use plain_types::{Items, Text};
use std::alloc::{AllocError, Global};
use term_core::{Action, Body, Expr, Node, Operator, SingleAction, Step, Target};
use term_evaluation::state_value;
use variant_value::Value;

/// One more than a number.
fn one_more(alloc: Global, number: Expr) -> Result<Expr, AllocError>
    ensures { IfOk result (λ expr. expr ≡ one_more number) }
{
    let one = Expr {
        node: Node::Const(Value::Int(1)),
    };
    let (number, one) = (Box::new(alloc, number)?, Box::new(alloc, one)?);
    Ok(Expr {
        node: Node::Binary(Operator::Sum, number, one),
    })
}

/// Sets `y` of the context object to one more than a number.
fn counted(alloc: Global, number: Expr) -> Result<Vec<Action>, AllocError>
    ensures { IfOk result (λ actions. actions.items ≡ counted number) }
{
    let property = Text::from_str(alloc, "y")?;
    let value = one_more(alloc, number)?;
    let step = Step::Single(SingleAction::Set {
        of: Target::Itself,
        property,
        value,
    });
    Ok(vec![in alloc; Action { step }]?)
}

/// Makes the actions of `count` over a state.
fn count_actions(alloc: Global, state: u64) -> Result<Vec<Action>, AllocError>
    ensures { IfOk result (λ actions. (args : List ValueSeen) → actions.items ≡ unfolded_body args (with_state state count_body)) }
{
    let node = Node::Const(state_value(state));
    counted(alloc, Expr { node })
}

/// The state of `count` after a call that finds this one: one more, up to the largest.
#[tactic(auto, using(crate::proofs::StateLemmas::state_counts))]
fn count_state(state: u64) -> u64
    ensures { (args : List ValueSeen) → result ≡ after (one_more term.state) state args }
{
    state.saturating_add(1)
}

/// Returns the answer of `count` over a state, whatever number it is given.
pub fn count_answer(
    alloc: Global,
    found: u64,
    args: &[Value],
) -> Result<(Vec<Action>, u64), AllocError>
    ensures { Counts found args.now result }
{
    let actions = count_actions(alloc, found)?;
    Ok((actions, count_state(found)))
}

/// Makes the body of `count`, which says what it does with its state.
pub(crate) fn count_body(alloc: Global) -> Result<Body, AllocError>
    ensures { IfOk result (λ body. body ≡ count_body) }
{
    let actions = counted(alloc, Expr { node: Node::State })?;
    Ok(Body {
        params: 1,
        actions: Items::from_vec(actions),
    })
}

/// Makes the expression that gives `count` its next state.
pub(crate) fn count_next(alloc: Global) -> Result<Expr, AllocError>
    ensures { IfOk result (λ next. next ≡ one_more term.state) }
{
    one_more(alloc, Expr { node: Node::State })
}
