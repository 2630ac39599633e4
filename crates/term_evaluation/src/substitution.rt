//! A body with its state and arguments put in.
ghost use Rattle.std.specs.Prelude.{◌≡◌, List, IfOk, map};
ghost use Rattle.term_core.specs.Act.{acts_of, when};
ghost use Rattle.term_core.specs.Term as term;
ghost use Rattle.term_core.specs.Term.{arg, binary, choice};
ghost use Rattle.term_core.specs.declared.action.SingleAction.TheVariants as e;
ghost use Rattle.term_evaluation.specs.Stating.{put_in, with_state};
ghost use Rattle.term_evaluation.specs.Unfolding.{act_by, effect_by, unfolded_body, unfolded_term};

use crate::both::both;
use crate::operations::state_value;
use plain_types::{ConnectionType, Items, Text};
use signature_core::Signature;
use std::alloc::{AllocError, Global};
use term_core::{Action, Body, Expr, Node, Operator, SingleAction, Step, Target};
use variant_value::Value;

/// The body's actions with the state and the arguments put in: each `Node::State` and each `Node::Arg`, at
/// every depth of every expression, is replaced by the constant state, a number of the kind that `infer`
/// gives it, and by the constant argument of that place. One beyond the arguments stays as it is.
pub fn unfold(
    alloc: Global,
    body: &Body,
    state: u64,
    args: &[Value],
) -> Result<Items<Action>, AllocError>
    ensures { IfOk result (λ actions. actions ≡ unfolded_body args.now (with_state state body.now)) }
{
    let actions = put_in_actions(alloc, body.actions.as_slice(), Some(state), args)?;
    Ok(Items::from_vec(actions))
}

/// The body once more, in memory of its own.
pub fn copied_body(alloc: Global, body: &Body) -> Result<Body, AllocError>
    ensures { IfOk result (λ copy. copy ≡ body.now) }
{
    let actions = put_in_actions(alloc, body.actions.as_slice(), None, &[])?;
    Ok(Body {
        params: body.params,
        actions: Items::from_vec(actions),
    })
}

#[cycle(put_in)]
fn put_in_actions(
    alloc: Global,
    actions: &[Action],
    given: Option<u64>,
    args: &[Value],
) -> Result<Vec<Action>, AllocError>
    ensures { IfOk result (λ found. found.items ≡ map (act_by (put_in given args.now)) actions.now) }
{
    let mut found = Vec::new(alloc);
    for action in actions {
        found.push(put_in_action(alloc, action, given, args)?)?;
    }
    Ok(found)
}

#[cycle(put_in)]
fn put_in_action(
    alloc: Global,
    action: &Action,
    given: Option<u64>,
    args: &[Value],
) -> Result<Action, AllocError>
    ensures { IfOk result (λ found. found ≡ act_by (put_in given args.now) action.now) }
{
    match &action.step {
        Step::Single(effect) => {
            let effect = put_in_effect(alloc, effect, given, args)?;
            Ok(Action {
                step: Step::Single(effect),
            })
        }
        Step::When(test, held, failed) => put_in_when(alloc, test, held, failed, given, args),
    }
}

#[cycle(put_in)]
#[tactic(auto, using(crate::proofs::Branches::branch_changed))]
fn put_in_when(
    alloc: Global,
    test: &Expr,
    held: &[Action],
    failed: &[Action],
    given: Option<u64>,
    args: &[Value],
) -> Result<Action, AllocError>
    ensures { IfOk result (λ found. found ≡ act_by (put_in given args.now) (when test.now (acts_of held.now) (acts_of failed.now))) }
{
    let branches = both(
        put_in_actions(alloc, held, given, args),
        put_in_actions(alloc, failed, given, args),
    );
    let (test, (held, failed)) = both(put_in_expr(alloc, test, given, args), branches)?;
    Ok(Action {
        step: Step::When(test, held, failed),
    })
}

fn put_in_effect(
    alloc: Global,
    effect: &SingleAction,
    given: Option<u64>,
    args: &[Value],
) -> Result<SingleAction, AllocError>
    ensures { IfOk result (λ found. found ≡ effect_by (put_in given args.now) effect.now) }
{
    match effect {
        SingleAction::Set {
            of,
            property,
            value,
        } => put_in_set(alloc, of, property, value, given, args),
        SingleAction::Emit {
            of,
            signal,
            args: sent,
        } => put_in_emit(alloc, of, signal, sent.as_slice(), given, args),
        SingleAction::Connect {
            of,
            signal,
            to,
            method,
            mode,
            unique,
            single,
        } => copy_connect(alloc, of, signal, to, method, *mode, *unique, *single),
        SingleAction::Disconnect {
            of,
            signal,
            to,
            method,
        } => copy_disconnect(alloc, of, signal, to, method),
        SingleAction::Delete(target) => target.copy(alloc).map(SingleAction::Delete),
        SingleAction::DeleteLater(target) => target.copy(alloc).map(SingleAction::DeleteLater),
        SingleAction::Block { of, on } => copy_block(alloc, of, *on),
        SingleAction::SetParent { of, parent } => copy_set_parent(alloc, of, parent),
    }
}

fn put_in_set(
    alloc: Global,
    of: &Target,
    property: &Text,
    value: &Expr,
    given: Option<u64>,
    args: &[Value],
) -> Result<SingleAction, AllocError>
    ensures { IfOk result (λ found. found ≡ e.Set of.now property.now (put_in given args.now value.now)) }
{
    let place = both(of.copy(alloc), property.copy(alloc));
    let ((of, property), value) = both(place, put_in_expr(alloc, value, given, args))?;
    Ok(SingleAction::Set {
        of,
        property,
        value,
    })
}

fn put_in_emit(
    alloc: Global,
    of: &Target,
    signal: &Signature,
    sent: &[Expr],
    given: Option<u64>,
    args: &[Value],
) -> Result<SingleAction, AllocError>
    ensures { IfOk result (λ found. found ≡ e.Emit of.now signal.now (map (put_in given args.now) sent.now)) }
{
    let sender = both(of.copy(alloc), copy_signature(alloc, signal));
    let ((of, signal), args) = both(sender, put_in_exprs(alloc, sent, given, args))?;
    Ok(SingleAction::Emit { of, signal, args })
}

fn copy_connect(
    alloc: Global,
    of: &Target,
    signal: &Signature,
    to: &Target,
    method: &Signature,
    mode: ConnectionType,
    unique: bool,
    single: bool,
) -> Result<SingleAction, AllocError>
    ensures { IfOk result (λ copy. copy ≡ e.Connect of.now signal.now to.now method.now mode unique single) }
{
    let sender = both(of.copy(alloc), copy_signature(alloc, signal));
    let receiver = both(to.copy(alloc), copy_signature(alloc, method));
    let ((of, signal), (to, method)) = both(sender, receiver)?;
    Ok(SingleAction::Connect {
        of,
        signal,
        to,
        method,
        mode,
        unique,
        single,
    })
}

fn copy_disconnect(
    alloc: Global,
    of: &Target,
    signal: &Option<Signature>,
    to: &Option<Target>,
    method: &Option<Signature>,
) -> Result<SingleAction, AllocError>
    ensures { IfOk result (λ copy. copy ≡ e.Disconnect of.now signal.now to.now method.now) }
{
    let sender = both(of.copy(alloc), copy_optional_signature(alloc, signal));
    let receiver = both(
        copy_optional_target(alloc, to),
        copy_optional_signature(alloc, method),
    );
    let ((of, signal), (to, method)) = both(sender, receiver)?;
    Ok(SingleAction::Disconnect {
        of,
        signal,
        to,
        method,
    })
}

fn copy_block(alloc: Global, of: &Target, on: bool) -> Result<SingleAction, AllocError>
    ensures { IfOk result (λ copy. copy ≡ e.Block of.now on) }
{
    let of = of.copy(alloc)?;
    Ok(SingleAction::Block { of, on })
}

fn copy_set_parent(
    alloc: Global,
    of: &Target,
    parent: &Option<Target>,
) -> Result<SingleAction, AllocError>
    ensures { IfOk result (λ copy. copy ≡ e.SetParent of.now parent.now) }
{
    let (of, parent) = both(of.copy(alloc), copy_optional_target(alloc, parent))?;
    Ok(SingleAction::SetParent { of, parent })
}

fn put_in_exprs(
    alloc: Global,
    exprs: &[Expr],
    given: Option<u64>,
    args: &[Value],
) -> Result<Items<Expr>, AllocError>
    ensures { IfOk result (λ found. found ≡ map (put_in given args.now) exprs.now) }
{
    let mut found = Vec::new(alloc);
    for expr in exprs {
        found.push(put_in_expr(alloc, expr, given, args)?)?;
    }
    Ok(Items::from_vec(found))
}

#[cycle(put_in_expr)]
pub(crate) fn put_in_expr(
    alloc: Global,
    expr: &Expr,
    given: Option<u64>,
    args: &[Value],
) -> Result<Expr, AllocError>
    ensures { IfOk result (λ found. found ≡ put_in given args.now expr.now) }
{
    match &expr.node {
        Node::Const(_) | Node::Prop(_, _) => expr.copy(alloc),
        Node::Arg(place) => put_in_arg(alloc, *place, args),
        Node::State => Ok(put_in_state(given)),
        Node::Binary(operator, a, b) => put_in_binary(alloc, *operator, a, b, given, args),
        Node::Choice(test, held, failed) => put_in_choice(alloc, test, held, failed, given, args),
    }
}

fn put_in_arg(alloc: Global, place: usize, args: &[Value]) -> Result<Expr, AllocError>
    ensures { IfOk result (λ found. found ≡ unfolded_term args.now (arg place)) }
{
    let node = match args.get(place) {
        Some(value) => Node::Const(value.copy(alloc)?),
        None => Node::Arg(place),
    };
    Ok(Expr { node })
}

fn put_in_state(given: Option<u64>) -> Expr
    ensures { (args : List Value) → result ≡ put_in given args term.state }
{
    let node = match given {
        Some(number) => Node::Const(state_value(number)),
        None => Node::State,
    };
    Expr { node }
}

#[cycle(put_in_expr)]
fn put_in_binary(
    alloc: Global,
    operator: Operator,
    a: &Expr,
    b: &Expr,
    given: Option<u64>,
    args: &[Value],
) -> Result<Expr, AllocError>
    ensures { IfOk result (λ found. found ≡ put_in given args.now (binary operator a.now b.now)) }
{
    let a = put_in_operand(alloc, a, given, args);
    let (a, b) = both(a, put_in_operand(alloc, b, given, args))?;
    Ok(Expr {
        node: Node::Binary(operator, a, b),
    })
}

#[cycle(put_in_expr)]
fn put_in_choice(
    alloc: Global,
    test: &Expr,
    held: &Expr,
    failed: &Expr,
    given: Option<u64>,
    args: &[Value],
) -> Result<Expr, AllocError>
    ensures { IfOk result (λ found. found ≡ put_in given args.now (choice test.now held.now failed.now)) }
{
    let branches = both(
        put_in_operand(alloc, held, given, args),
        put_in_operand(alloc, failed, given, args),
    );
    let (test, (held, failed)) = both(put_in_operand(alloc, test, given, args), branches)?;
    Ok(Expr {
        node: Node::Choice(test, held, failed),
    })
}

#[cycle(put_in_expr)]
fn put_in_operand(
    alloc: Global,
    expr: &Expr,
    given: Option<u64>,
    args: &[Value],
) -> Result<Box<Expr>, AllocError>
    ensures { IfOk result (λ found. found.value ≡ put_in given args.now expr.now) }
{
    Ok(Box::new(alloc, put_in_expr(alloc, expr, given, args)?)?)
}

fn copy_signature(alloc: Global, signature: &Signature) -> Result<Signature, AllocError>
    ensures { IfOk result (λ copy. copy ≡ signature.now) }
{
    let kinds = Vec::from_slice(alloc, signature.kinds.as_slice());
    let (name, kinds) = both(signature.name.copy(alloc), kinds)?;
    Ok(Signature {
        name,
        kinds: Items::from_vec(kinds),
    })
}

fn copy_optional_signature(
    alloc: Global,
    signature: &Option<Signature>,
) -> Result<Option<Signature>, AllocError>
    ensures { IfOk result (λ copy. copy ≡ signature.now) }
{
    match signature {
        Some(signature) => Ok(Some(copy_signature(alloc, signature)?)),
        None => Ok(None),
    }
}

fn copy_optional_target(
    alloc: Global,
    target: &Option<Target>,
) -> Result<Option<Target>, AllocError>
    ensures { IfOk result (λ copy. copy ≡ target.now) }
{
    match target {
        Some(target) => Ok(Some(target.copy(alloc)?)),
        None => Ok(None),
    }
}
