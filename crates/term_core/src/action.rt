//! Actions.
ghost use Rattle.std.specs.Prelude.{◌≡◌, ◌^◌, ◌-◌, min};
ghost use Rattle.std.specs.List.{list_all};
ghost use Rattle.term_core.specs.Forms.{is_within_limits};
ghost use Rattle.term_core.specs.Act.{single_action, when, acts_of, count, counts, is_effect_limited, is_limited, are_limited};

use crate::expr::Expr;
use crate::target::Target;
use plain_types::{ConnectionType, Items, Text};
use signature_core::Signature;
use std::marker::Model;

/// An action that does one thing. `of` is the object that it acts on. A target's object is looked up
/// when the action is run.
pub enum SingleAction {
    /// Writes a property.
    Set {
        of: Target,
        property: Text,
        value: Expr,
    },
    /// Sends a signal.
    Emit {
        of: Target,
        signal: Signature,
        args: Items<Expr>,
    },
    /// Connects a signal to a method of an object.
    Connect {
        of: Target,
        signal: Signature,
        to: Target,
        method: Signature,
        mode: ConnectionType,
        unique: bool,
        single: bool,
    },
    /// Breaks the connections that match. A signal, receiver or method that is not named matches any;
    /// a method is named only together with a receiver.
    Disconnect {
        of: Target,
        signal: Option<Signature>,
        to: Option<Target>,
        method: Option<Signature>,
    },
    /// Deletes an object at once.
    Delete(Target),
    /// Deletes an object when the session next takes its events.
    DeleteLater(Target),
    /// Blocks the object's signals, or lets them through again.
    Block {
        of: Target,
        on: bool,
    },
    /// Puts the object below a parent, or at the top.
    SetParent {
        of: Target,
        parent: Option<Target>,
    },
}

impl Drop for SingleAction {
    fn drop(self) {
        match self {
            SingleAction::Set {
                of: _,
                property: _,
                value: _,
            }
            | SingleAction::Emit {
                of: _,
                signal: _,
                args: _,
            }
            | SingleAction::Connect {
                of: _,
                signal: _,
                to: _,
                method: _,
                mode: _,
                unique: _,
                single: _,
            }
            | SingleAction::Disconnect {
                of: _,
                signal: _,
                to: _,
                method: _,
            }
            | SingleAction::Delete(_)
            | SingleAction::DeleteLater(_)
            | SingleAction::Block { of: _, on: _ }
            | SingleAction::SetParent { of: _, parent: _ } => (),
        }
    }
}

impl SingleAction {
    /// Whether all expressions keep to their limits.
    fn is_limited(&self) -> bool
        ensures { result ≡ is_effect_limited self.now }
    {
        match self {
            SingleAction::Set { value, .. } => value.is_within_limits(),
            SingleAction::Emit { args, .. } => are_within_limits(args.as_slice()),
            _ => true,
        }
    }
}

fn are_within_limits(exprs: &[Expr]) -> bool
    ensures { result ≡ list_all is_within_limits exprs.now }
{
    exprs.iter().all(|expr| expr.is_within_limits())
}

/// An action of a slot's body.
#[cycle(action)]
#[derive(Drop)]
pub struct Action {
    pub step: Step,
}

/// An action is a single one, or a choice between two bodies.
#[cycle(action)]
#[derive(Drop)]
pub enum Step {
    Single(SingleAction),
    /// A truth, the actions where it holds, and those where it does not.
    When(Expr, Vec<Action>, Vec<Action>),
}

impl Model for Action {
    ghost use Rattle.term_core.specs.Act.{Act, count};
    ghost use Rattle.term_core.specs.CodedAct.{coded_act};

    ghost Value = { Act };

    ghost coded = { coded_act };

    ghost use Rattle.term_core.specs.Steps.{act_at};

    ghost view = { λ action. act_at action.step };

    ghost size = { count };

    ghost use Rattle.term_core.specs.StepFalls.{deep_le-count};

    ghost size_decreases = { λ a h. deep_le-count a.step };
}

impl Action {
    pub(crate) fn single(plain: SingleAction) -> Action
        ensures { result ≡ single_action plain }
    {
        Action {
            step: Step::Single(plain),
        }
    }

    pub(crate) fn when(test: Expr, held: Items<Action>, failed: Items<Action>) -> Action
        ensures { result ≡ when test (acts_of held) (acts_of failed) }
    {
        Action {
            step: Step::When(test, held.into_vec(), failed.into_vec()),
        }
    }

    /// How many actions there are, those in branches among them, or the largest number.
    #[cycle(count)]
    fn count(&self) -> usize
        ensures { result ≡ min (count self.now) (2 ^ 64 - 1) }
    {
        match &self.step {
            Step::Single(_) => 1,
            Step::When(_, held, failed) => count_all(held)
                .saturating_add(count_all(failed))
                .saturating_add(1),
        }
    }

    /// Whether all expressions keep to their limits.
    #[cycle(limited)]
    fn is_limited(&self) -> bool
        ensures { result ≡ is_limited self.now }
    {
        match &self.step {
            Step::Single(effect) => effect.is_limited(),
            Step::When(test, held, failed) => {
                test.is_within_limits() && are_limited(held) && are_limited(failed)
            }
        }
    }
}

/// How many actions a list has, those in branches among them, or the largest number.
#[cycle(count)]
pub(crate) fn count_all(actions: &[Action]) -> usize
    ensures { result ≡ min (counts (acts_of actions.now)) (2 ^ 64 - 1) }
{
    let mut total: usize = 0;
    for action in actions {
        total = total.saturating_add(action.count());
    }
    total
}

/// Whether all expressions of a list keep to their limits.
#[cycle(limited)]
pub(crate) fn are_limited(actions: &[Action]) -> bool
    ensures { result ≡ are_limited (acts_of actions.now) }
{
    for action in actions {
        if !action.is_limited() {
            return false;
        }
    }
    true
}
