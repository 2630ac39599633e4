//! Signatures: a method's name and the kinds of its parameters.
ghost use Rattle.std.specs.Prelude.{◌≡◌, ◌↔◌, ◌++◌, List, Some, IsTrue, IfOk, map, string_bytes};
ghost use Rattle.std.specs.List.{join_with_byte};
ghost use Rattle.signature_core.specs.Kinds.{fits, kind_name};

use crate::kind::Kind;
use crate::reading::signature;
use plain_types::{Code, Fault, Items, Text};
use std::alloc::{AllocError, Global};

/// The most parameters that a signature may have: a limit of our own.
pub const PARAMS: usize = 10;

/// A signature tells a method from the others of its class. `normalise` makes one of a text.
pub struct Signature {
    /// The method's name.
    pub name: Text,
    /// The kinds of its parameters, first to last.
    pub kinds: Items<Kind>,
}

impl Drop for Signature {
    fn drop(self) {
        let Signature { name: _, kinds: _ } = self;
    }
}

impl Signature {
    ghost use Rattle.std.specs.Option.{ok_or};
    ghost use Rattle.plain_types.specs.Answers.{Answers};
    ghost use Rattle.plain_types.specs.declared.code.Code.TheVariants.{BadSignature};
    ghost use Rattle.plain_types.specs.declared.fault.Fault.TheVariants.{Refused};
    ghost use Rattle.signature_core.specs.Grammar.{Spells, normal_text};
    ghost use Rattle.signature_core.specs.Reading.{signature_of, IsNormal};

    /// Reads a signature from its text; a text that is not a signature is `BadSignature`. As in Qt,
    /// white space, `const`, a reference to a constant, and `void` in place of no parameters make
    /// no difference. A reference without `const` is a different type, which no parameter may have.
    pub fn normalise(alloc: Global, text: &str) -> Result<Signature, Fault>
        ensures exact { Answers result (ok_or (signature_of text.now) BadSignature) }

        // What is read of the text is what the grammar says of it, in both directions.
        ensures grammar { (s : _)
            → (signature_of text.now ≡ Some s) ↔ Spells text.now s.name s.kinds }
        ensures found { IfOk result (λ s. Spells text.now s.name s.kinds) }
        ensures refused { result ≡ Err (Refused BadSignature)
            → (name : _) (kinds : _) → ¬ (Spells text.now name kinds) }
        ensures normal { IfOk result IsNormal }
    {
        match signature(alloc, text.as_bytes())? {
            Some(signature) => Ok(signature),
            None => Err(Fault::Refused(Code::BadSignature)),
        }
    }

    /// The signature as it is written with nothing that may be left out, such as
    /// `setText(QString,int)`. Two texts spell one signature where their normal texts are equal.
    pub fn text(&self, alloc: Global) -> Result<String, AllocError>
        ensures text { IfOk result (λ text. string_bytes text
            ≡ normal_text self.now.name self.now.kinds) }
        ensures read_again { IsNormal self.now
            → signature_of (normal_text self.now.name self.now.kinds) ≡ Some self.now }
    {
        let mut text = String::from_str(alloc, self.name.as_str())?;
        text.push('(')?;
        push_names(&mut text, self.kinds.as_slice())?;
        text.push(')')?;
        Ok(text)
    }
}

/// Appends the kinds' names to the text, with commas between them.
fn push_names(text: &mut String, kinds: &[Kind]) -> Result<(), AllocError>
    ensures pushed { IfOk result (λ _. string_bytes text.new
        ≡ string_bytes text.old ++ join_with_byte 44 (map kind_name kinds.now)) }
{
    for (index, kind) in kinds.iter().enumerate() {
        if index > 0 {
            text.push(',')?;
        }
        text.push_str(kind.name())?;
    }
    Ok(())
}

/// Whether a slot with these parameters can be connected to a signal with those: the slot's kinds
/// are the first of the signal's, and it does not get the others.
pub fn fits(signal: &[Kind], slot: &[Kind]) -> bool
    ensures value { result ≡ fits signal.now slot.now }
    ensures completes { IsTrue result ↔ ((rest : List _) × (signal.now ≡ slot.now ++ rest)) }
{
    signal.starts_with(slot)
}
