//! Expressions.
ghost use Rattle.std.specs.Prelude.{◌≡◌, ◌^◌, ◌-◌, min, IfOk, IsTrue};
ghost use Rattle.plain_types.specs.Answers.{Answers};
ghost use Rattle.serde_json.specs.View.{view};
ghost use Rattle.term_core.specs.Term.{const, arg, state, prop, binary, choice, nodes, is_short, has_short_texts};
ghost use Rattle.term_core.specs.Bodies.{IsNext};
ghost use Rattle.term_core.specs.Forms.{binding_term_of, next_term_of, is_within_limits};

use crate::forms;
use crate::limits::NODES;
use crate::operator::Operator;
use crate::scope::Scope;
use crate::target::Target;
use plain_types::{Code, Fault, Text};
use std::alloc::{AllocError, Global};
use std::marker::Model;
use variant_value::{TEXT_BYTES, Value};

/// An expression of a binding, of a body, or of what gives a functor its next state.
#[cycle(expr)]
pub struct Expr {
    pub node: Node,
}

impl Drop for Expr {
    #[cycle(drop)]
    fn drop(self) {
        let Expr { node: _ } = self;
    }
}

/// An expression's outermost form.
#[cycle(expr)]
#[derive(Drop)]
pub enum Node {
    Const(Value),
    /// An argument of the slot or functor, from 0.
    Arg(usize),
    /// The state of the functor.
    State,
    /// A property of an object, declared or dynamic.
    Prop(Target, Text),
    Binary(Operator, Box<Expr>, Box<Expr>),
    /// A truth, and what the expression is where it holds and where it does not.
    Choice(Box<Expr>, Box<Expr>, Box<Expr>),
}

impl Model for Expr {
    ghost use Rattle.term_core.specs.Term.{Term, nodes};
    ghost use Rattle.term_core.specs.Coded.{coded_term};

    ghost Value = { Term };

    ghost coded = { coded_term };

    ghost use Rattle.term_core.specs.Nodes.{term_at};

    ghost view = { λ expr. term_at expr.node };

    ghost size = { nodes };
}

impl Expr {
    /// The expression of a binding. JSON that has none of the forms is `BadValue`; so are arguments, a
    /// state, the sender and children, which a binding does not have. More than [`NODES`] forms, or a text of
    /// more than `TEXT_BYTES`, is `Limit`, but only where nothing is `BadValue`.
    pub fn from_json(alloc: Global, json: &serde_json::Value) -> Result<Expr, Fault>
        ensures answers { Answers result (binding_term_of (view json.now)) }
        ensures limited { IfOk result (λ expr. IsTrue (is_within_limits expr)) }
    {
        let expr = forms::expression(alloc, Scope::Binding, json)?;
        if !expr.is_within_limits() {
            return Err(Fault::Refused(Code::Limit));
        }
        Ok(expr)
    }

    /// Reads the expression that gives a functor with `params` parameters its next state, over its state and
    /// its arguments. JSON that has none of the forms is `BadValue`; so are properties, and an argument beyond
    /// the parameters. More than [`NODES`] forms, or a text of more than `TEXT_BYTES`, is `Limit`, but only
    /// where nothing is `BadValue`.
    pub fn next_from_json(
        alloc: Global,
        json: &serde_json::Value,
        params: usize,
    ) -> Result<Expr, Fault>
        ensures answers { Answers result (next_term_of params (view json.now)) }
        ensures sound { IfOk result (IsNext params) }
    {
        let expr = forms::expression(alloc, Scope::Next(params), json)?;
        if !expr.is_within_limits() {
            return Err(Fault::Refused(Code::Limit));
        }
        Ok(expr)
    }

    pub(crate) fn constant(value: Value) -> Expr
        ensures { result ≡ const value }
    {
        Expr {
            node: Node::Const(value),
        }
    }

    pub(crate) fn argument(place: usize) -> Expr
        ensures { result ≡ arg place }
    {
        Expr {
            node: Node::Arg(place),
        }
    }

    pub(crate) fn state() -> Expr
        ensures { result ≡ state }
    {
        Expr { node: Node::State }
    }

    pub(crate) fn property(target: Target, name: Text) -> Expr
        ensures { result ≡ prop target name }
    {
        Expr {
            node: Node::Prop(target, name),
        }
    }

    pub(crate) fn binary(
        alloc: Global,
        operator: Operator,
        a: Expr,
        b: Expr,
    ) -> Result<Expr, AllocError>
        ensures { IfOk result (λ expr. expr ≡ binary operator a b) }
    {
        let (a, b) = boxed(alloc, a, b)?;
        Ok(Expr {
            node: Node::Binary(operator, a, b),
        })
    }

    pub(crate) fn choice(alloc: Global, test: Expr, a: Expr, b: Expr) -> Result<Expr, AllocError>
        ensures { IfOk result (λ expr. expr ≡ choice test a b) }
    {
        let test = Box::new(alloc, test)?;
        let (a, b) = boxed(alloc, a, b)?;
        Ok(Expr {
            node: Node::Choice(test, a, b),
        })
    }

    /// An equal expression in memory of its own.
    #[cycle(copy)]
    pub fn copy(&self, alloc: Global) -> Result<Expr, AllocError>
        ensures { IfOk result (λ expr. expr ≡ self.now) }
    {
        match &self.node {
            Node::Const(value) => Ok(Expr::constant(value.copy(alloc)?)),
            Node::Arg(place) => Ok(Expr::argument(*place)),
            Node::State => Ok(Expr::state()),
            Node::Prop(target, name) => {
                Ok(Expr::property(target.copy(alloc)?, name.copy(alloc)?))
            }
            Node::Binary(operator, a, b) => copy_binary(alloc, *operator, a, b),
            Node::Choice(test, a, b) => copy_choice(alloc, test, a, b),
        }
    }

    /// How many forms the expression is made of, or the largest number.
    pub fn nodes(&self) -> usize
        ensures { result ≡ min (nodes self.now) (2 ^ 64 - 1) }
    {
        match &self.node {
            Node::Const(_) | Node::Arg(_) | Node::State | Node::Prop(_, _) => 1,
            Node::Binary(_, a, b) => a.nodes().saturating_add(b.nodes()).saturating_add(1),
            Node::Choice(test, a, b) => test
                .nodes()
                .saturating_add(a.nodes())
                .saturating_add(b.nodes())
                .saturating_add(1),
        }
    }

    fn has_short_texts(&self) -> bool
        ensures { result ≡ has_short_texts self.now }
    {
        match &self.node {
            Node::Const(value) => is_short(value),
            Node::Arg(_) | Node::State | Node::Prop(_, _) => true,
            Node::Binary(_, a, b) => a.has_short_texts() && b.has_short_texts(),
            Node::Choice(test, a, b) => {
                test.has_short_texts() && a.has_short_texts() && b.has_short_texts()
            }
        }
    }

    pub(crate) fn is_within_limits(&self) -> bool
        ensures { result ≡ is_within_limits self.now }
    {
        self.nodes() <= NODES && self.has_short_texts()
    }
}

#[cycle(copy)]
fn copy_binary(alloc: Global, operator: Operator, a: &Expr, b: &Expr) -> Result<Expr, AllocError>
    ensures { IfOk result (λ expr. expr ≡ binary operator a.now b.now) }
{
    let (a, b) = copies(alloc, a, b)?;
    Expr::binary(alloc, operator, a, b)
}

#[cycle(copy)]
fn copy_choice(alloc: Global, test: &Expr, a: &Expr, b: &Expr) -> Result<Expr, AllocError>
    ensures { IfOk result (λ expr. expr ≡ choice test.now a.now b.now) }
{
    let test = test.copy(alloc)?;
    let (a, b) = copies(alloc, a, b)?;
    Expr::choice(alloc, test, a, b)
}

#[cycle(copy)]
fn copies(alloc: Global, a: &Expr, b: &Expr) -> Result<(Expr, Expr), AllocError>
    ensures first { IfOk result (λ copies. copies.0 ≡ a.now) }
    ensures second { IfOk result (λ copies. copies.1 ≡ b.now) }
{
    let a = a.copy(alloc)?;
    Ok((a, b.copy(alloc)?))
}

/// Two expressions, each in memory of its own.
fn boxed(alloc: Global, a: Expr, b: Expr) -> Result<(Box<Expr>, Box<Expr>), AllocError>
    ensures first { IfOk result (λ boxes. boxes.0.value ≡ a) }
    ensures second { IfOk result (λ boxes. boxes.1.value ≡ b) }
{
    Ok((Box::new(alloc, a)?, Box::new(alloc, b)?))
}

fn is_short(value: &Value) -> bool
    ensures { result ≡ is_short value.now }
{
    match value {
        Value::Text(text) => text.len() <= TEXT_BYTES,
        _ => true,
    }
}
