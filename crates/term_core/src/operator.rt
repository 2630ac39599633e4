//! Operators, and the keys of forms.
ghost use Rattle.std.specs.Prelude.{◌≡◌};
ghost use Rattle.term_core.specs.Forms.{form_named};

/// An operator makes a value of two operands.
#[derive(Clone, Copy)]
pub enum Operator {
    /// The sum of two numbers.
    Sum,
    /// The difference of two numbers.
    Difference,
    /// Whether the first of two numbers is below the second.
    Less,
    /// Whether two numbers, two truths or two texts are equal.
    Equal,
    /// The first of two texts, followed by the second.
    Concatenated,
}

/// A form of expression that has one key.
#[derive(Clone, Copy)]
pub(crate) enum Form {
    Const,
    Arg,
    State,
    Binary(Operator),
    Choice,
}

impl Form {
    /// The form that the key stands for.
    pub(crate) fn from_key(key: &str) -> Option<Form>
        ensures { result ≡ form_named key.now }
    {
        Some(match key {
            "const" => Form::Const,
            "arg" => Form::Arg,
            "state" => Form::State,
            "+" => Form::Binary(Operator::Sum),
            "-" => Form::Binary(Operator::Difference),
            "<" => Form::Binary(Operator::Less),
            "=" => Form::Binary(Operator::Equal),
            "cat" => Form::Binary(Operator::Concatenated),
            "if" => Form::Choice,
            _ => return None,
        })
    }
}
