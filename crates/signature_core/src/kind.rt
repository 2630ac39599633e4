//! The types of values.
ghost use Rattle.std.specs.Prelude.{◌≡◌, Some, IfSome};
ghost use Rattle.signature_core.specs.Kinds.{kind_named, kind_name};

/// The type of a property or of a parameter: six of the types that Qt's meta-objects know.
#[derive(Clone, Copy, PartialEq, Eq)]
pub enum Kind {
    /// A truth: `bool`.
    Bool,
    /// A whole number of 32 bits with a sign: `int`.
    Int,
    /// A whole number of 32 bits without a sign: `uint`.
    Uint,
    /// A whole number of 64 bits with a sign: `qlonglong`.
    Longlong,
    /// A whole number of 64 bits without a sign: `qulonglong`.
    Ulonglong,
    /// A text: `QString`.
    Text,
}

const KINDS: [Kind; 6] = [
    Kind::Bool,
    Kind::Int,
    Kind::Uint,
    Kind::Longlong,
    Kind::Ulonglong,
    Kind::Text,
];

impl Kind {
    /// The type of this name, spelled exactly so.
    pub fn from_name(name: &str) -> Option<Kind>
        ensures value { result ≡ kind_named name.now }
        ensures named { IfSome result (λ kind. kind_name kind ≡ name.now) }
    {
        Kind::from_bytes(name.as_bytes())
    }

    /// The type of this name, of bytes that need not be UTF-8.
    pub(crate) fn from_bytes(name: &[u8]) -> Option<Kind>
        ensures value { result ≡ kind_named name.now }
        ensures named { IfSome result (λ kind. kind_name kind ≡ name.now) }
    {
        KINDS
            .iter()
            .copied()
            .find(|kind| name == kind.name().as_bytes())
    }

    /// The type's name in signatures, as Qt spells it.
    pub fn name(self) -> &'static str
        ensures value { result.now ≡ kind_name self }
        ensures named { kind_named result.now ≡ Some self }
    {
        match self {
            Kind::Bool => "bool",
            Kind::Int => "int",
            Kind::Uint => "uint",
            Kind::Longlong => "qlonglong",
            Kind::Ulonglong => "qulonglong",
            Kind::Text => "QString",
        }
    }
}
