//! Bodies of slots, and the laws of their expressions.
use term_core::{Action, Expr, SingleAction, Step};
use term_evaluation::{
    evaluates_in_place, reads_suffice, state_keeps_limits, unfolding_keeps_limits,
    unfolding_leaves_no_argument, values_are_short,
};

/// Returns the expression that the first action sets, sends first or tests.
pub(crate) fn first_value(actions: &[Action]) -> Option<&Expr> {
    match &actions.first()?.step {
        Step::Single(SingleAction::Set { value, .. }) => Some(value),
        Step::Single(SingleAction::Emit { args, .. }) => args.get(0),
        Step::Single(_) => None,
        Step::When(test, _, _) => Some(test),
    }
}

/// The first branch of the first action, none where it does not choose.
pub(crate) fn branch(actions: &[Action]) -> &[Action] {
    let Some(action) = actions.first() else {
        return &[];
    };
    match &action.step {
        Step::Single(_) => &[],
        Step::When(_, held, _) => held,
    }
}

#[test]
fn there_are_laws() {
    reads_suffice::<()>();
    evaluates_in_place::<()>();
    values_are_short::<()>();
    unfolding_leaves_no_argument();
    unfolding_keeps_limits();
    state_keeps_limits();
}
