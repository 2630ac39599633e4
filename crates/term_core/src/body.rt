//! Bodies of slots and functors.
ghost use Rattle.std.specs.Prelude.{◌≡◌, IfOk};
ghost use Rattle.serde_json.specs.View.{view, items_view};
ghost use Rattle.plain_types.specs.Answers.{Answers};
ghost use Rattle.term_core.specs.Bodies.{IsBody, body_of, functor_body_of, limited_body, action_in, actions_in, acts_in};

use crate::action::{Action, are_limited, count_all};
use crate::effects::single_action;
use crate::forms::expression;
use crate::json::{BAD, has_only};
use crate::limits::ACTIONS;
use crate::scope::Scope;
use plain_types::{Code, Fault, Items};
use serde_json::Value as Json;
use std::alloc::Global;

/// A body lists the actions that a slot or a functor does when it is run, one after another.
pub struct Body {
    /// How many parameters it has.
    pub params: usize,
    pub actions: Items<Action>,
}

impl Drop for Body {
    fn drop(self) {
        let Body {
            params: _,
            actions: _,
        } = self;
    }
}

impl Body {
    /// Reads the body of a slot with `params` parameters. JSON that is not a body is `BadValue`; so are
    /// an argument beyond the parameters, a state, which a slot does not have, and an invalid signature.
    /// More than [`ACTIONS`] actions, or an expression of more than [`NODES`](crate::NODES) forms or with
    /// a text of more than `TEXT_BYTES`, is `Limit`, but only where nothing is `BadValue`.
    pub fn from_json(alloc: Global, json: &Json, params: usize) -> Result<Body, Fault>
        ensures answers { Answers result (body_of params (view json.now)) }
        ensures params { IfOk result (λ body. body.params ≡ params) }
        ensures sound { IfOk result IsBody }
    {
        let actions = actions(alloc, Scope::Slot(params), json)?;
        limited(params, actions)
    }

    /// Reads the body of a functor with `params` parameters, which may use the functor's state. Faults
    /// and limits are otherwise those of a slot's body.
    pub fn from_json_state(alloc: Global, json: &Json, params: usize) -> Result<Body, Fault>
        ensures answers { Answers result (functor_body_of params (view json.now)) }
        ensures params { IfOk result (λ body. body.params ≡ params) }
        ensures sound { IfOk result IsBody }
    {
        let actions = actions(alloc, Scope::Functor(params), json)?;
        limited(params, actions)
    }
}

/// The body of these actions, where they keep to the limits.
fn limited(params: usize, actions: Items<Action>) -> Result<Body, Fault>
    ensures { Answers result (limited_body params actions) }
{
    let list = actions.as_slice();
    if count_all(list) > ACTIONS || !are_limited(list) {
        return Err(Fault::Refused(Code::Limit));
    }
    Ok(Body { params, actions })
}

/// Reads an action of any size. JSON that is not an action is `BadValue`.
#[cycle(bodies)]
fn action(alloc: Global, scope: Scope, json: &Json) -> Result<Action, Fault>
    ensures { Answers result (action_in scope (view json.now)) }
{
    let Some(condition) = json.get("when") else {
        return Ok(Action::single(single_action(alloc, scope, json)?));
    };
    if !has_only(json, &["when", "then", "else"]) {
        return Err(BAD);
    }
    let Some(held) = json.get("then") else {
        return Err(BAD);
    };
    let held = actions(alloc, scope, held)?;
    let failed = match json.get("else") {
        Some(failed) => actions(alloc, scope, failed)?,
        None => Items::new(alloc),
    };
    let test = expression(alloc, scope, condition)?;
    Ok(Action::when(test, held, failed))
}

/// The actions of an array.
#[cycle(bodies)]
fn actions(alloc: Global, scope: Scope, json: &Json) -> Result<Items<Action>, Fault>
    ensures { Answers result (actions_in scope (view json.now)) }
{
    match json {
        Json::Array(list) => actions_of(alloc, scope, list),
        _ => Err(BAD),
    }
}

#[cycle(bodies)]
fn actions_of(alloc: Global, scope: Scope, list: &[Json]) -> Result<Items<Action>, Fault>
    ensures { Answers result (acts_in scope (items_view list.now)) }
{
    let mut found = Vec::new(alloc);
    for json in list {
        found.push(action(alloc, scope, json)?)?;
    }
    Ok(Items::from_vec(found))
}
