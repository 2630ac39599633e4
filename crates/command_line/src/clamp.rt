//! The functor `clamp`, which sets its context object's `x` to its argument, kept between two bounds.
ghost use Rattle.std.specs.Prelude.{◌≡◌, ◌∷◌, [], List, IfOk};
ghost use Rattle.variant_value.specs.declared.value.Value.TheVariants as v;
ghost use Rattle.term_core.specs.Act.{acts_of, when};
ghost use Rattle.term_core.specs.Term as term;
ghost use Rattle.term_core.specs.Term.{const, binary};
ghost use Rattle.term_evaluation.specs.Stating.{after};
ghost use Rattle.term_evaluation.specs.Unfolding.{unfolded_body};
ghost use Rattle.variant_value.specs.declared.value.Value.{Value as ValueSeen};
ghost use Rattle.term_core.specs.declared.operator.Operator.TheVariants.{Less};
ghost use Rattle.command_line.specs.Clamp.{Clamps, IsNumber, at_most, clamped, clamp_body, sets_x};

use plain_types::{Items, Text};
use std::alloc::{AllocError, Global};
use term_core::{Action, Body, Expr, Node, Operator, SingleAction, Step, Target};
use variant_value::Value;

fn number(number: i32) -> Expr
    ensures { result ≡ const (v.Int number) }
{
    Expr {
        node: Node::Const(Value::Int(number)),
    }
}

fn less(alloc: Global, a: Expr, b: Expr) -> Result<Expr, AllocError>
    ensures { IfOk result (λ expr. expr ≡ binary Less a b) }
{
    Ok(Expr {
        node: Node::Binary(Operator::Less, Box::new(alloc, a)?, Box::new(alloc, b)?),
    })
}

/// A list of one action.
fn alone(alloc: Global, action: Action) -> Result<Vec<Action>, AllocError>
    ensures { IfOk result (λ actions. actions.items ≡ action ∷ []) }
{
    Ok(vec![in alloc; action]?)
}

/// Sets `x` of the context object.
fn set_x(alloc: Global, value: Expr) -> Result<Vec<Action>, AllocError>
    ensures { IfOk result (λ actions. acts_of actions.items ≡ sets_x value) }
{
    let property = Text::from_str(alloc, "x")?;
    let step = Step::Single(SingleAction::Set {
        of: Target::Itself,
        property,
        value,
    });
    alone(alloc, Action { step })
}

/// One action that is done in one of two ways.
fn when(test: Expr, held: Vec<Action>, failed: Vec<Action>) -> Action
    ensures { result ≡ when test (acts_of held.items) (acts_of failed.items) }
{
    Action {
        step: Step::When(test, held, failed),
    }
}

/// Sets `x` to a number, or to the greatest that it may be.
fn at_most(alloc: Global, most: i32, given: &Expr) -> Result<Action, AllocError>
    ensures { IfOk result (λ action. action ≡ at_most most given.now) }
{
    let above = set_x(alloc, number(most))?;
    let between = set_x(alloc, given.copy(alloc)?)?;
    let is_above = less(alloc, number(most), given.copy(alloc)?)?;
    Ok(when(is_above, above, between))
}

/// Sets `x` to a number, but to the least where the number is below that.
fn at_least(
    alloc: Global,
    least: i32,
    given: &Expr,
    not_below: Action,
) -> Result<Action, AllocError>
    ensures { IfOk result (λ action. action ≡ when (binary Less given.now (const (v.Int least)))
        (sets_x (const (v.Int least))) (acts_of (not_below ∷ []))) }
{
    let not_below = alone(alloc, not_below)?;
    let below = set_x(alloc, number(least))?;
    let is_below = less(alloc, given.copy(alloc)?, number(least))?;
    Ok(when(is_below, below, not_below))
}

/// Sets `x` to a number, kept between the bounds.
pub fn clamped(
    alloc: Global,
    least: i32,
    most: i32,
    given: &Expr,
) -> Result<Vec<Action>, AllocError>
    ensures { IfOk result (λ actions. actions.items ≡ clamped least most given.now) }
{
    let not_below = at_most(alloc, most, given)?;
    let action = at_least(alloc, least, given, not_below)?;
    alone(alloc, action)
}

/// Makes the body of `clamp`, which says what it does with its argument.
pub fn clamp_body(alloc: Global, least: i32, most: i32) -> Result<Body, AllocError>
    ensures { IfOk result (λ body. body ≡ clamp_body least most) }
{
    let argument = Expr { node: Node::Arg(0) };
    let actions = clamped(alloc, least, most, &argument)?;
    Ok(Body {
        params: 1,
        actions: Items::from_vec(actions),
    })
}

/// Makes the expression that gives `clamp` its next state: the state itself.
pub(crate) fn clamp_next() -> Expr
    ensures { result ≡ term.state }
{
    Expr { node: Node::State }
}

/// The state that follows where a functor, as `clamp`, keeps the one that it finds.
#[tactic(auto, using(crate::proofs::StateLemmas::state_stays))]
pub fn kept_state(state: u64) -> u64
    ensures { (args : List ValueSeen) → result ≡ after term.state state args }
{
    state
}

/// The actions of `clamp` for the number that it is given.
fn clamp_actions(
    alloc: Global,
    least: i32,
    most: i32,
    args: &[Value],
) -> Result<Vec<Action>, AllocError>
    requires { IsNumber args.now }
    ensures { IfOk result (λ actions. actions.items ≡ unfolded_body args.now (clamp_body least most)) }
{
    let node = Node::Const(args[0].copy(alloc)?);
    clamped(alloc, least, most, &Expr { node })
}

/// Returns the answer of `clamp` over a state to the number that it is given.
pub fn clamp_answer(
    alloc: Global,
    least: i32,
    most: i32,
    found: u64,
    args: &[Value],
) -> Result<(Vec<Action>, u64), AllocError>
    requires { IsNumber args.now }
    ensures { Clamps least most found args.now result }
{
    let actions = clamp_actions(alloc, least, most, args)?;
    Ok((actions, kept_state(found)))
}
