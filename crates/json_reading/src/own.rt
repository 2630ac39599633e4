//! JSON that a member owns.
ghost use Rattle.std.specs.Prelude.{◌≡◌, None};
ghost use Rattle.serde_json.specs.Data.{object};
ghost use Rattle.serde_json.specs.Find.{as_str};
ghost use Rattle.serde_json.specs.View.{members_view, view};

use serde_json::{Map, Value};

/// JSON that is no text, which the member owns: an object, or null once the object is taken.
#[derive(Drop)]
pub struct Own {
    json: Value,
    ghost no_text: { as_str (view json) ≡ None },
}

impl Own {
    /// An object with these members.
    pub(crate) fn object(members: Map<String, Value>) -> Own
        ensures { view result.json ≡ object (members_view members.entries) }
    {
        Own {
            json: Value::Object(members),
        }
    }

    pub fn json(&self) -> &Value
        ensures { result.now ≡ self.now.json }
    {
        &self.json
    }

    /// The JSON itself. Null is left.
    pub(crate) fn take(&mut self) -> Value
        ensures { result ≡ self.old.json }
    {
        self.json.take()
    }
}
