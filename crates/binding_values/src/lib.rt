//! The values of bound properties. Each is the value of the property's expression, computed from the values
//! of the properties that it reads. Results are kept between changes, and only what a change reaches is
//! evaluated again. The properties and their stored values are in a `property_store`.
#![tactic(auto)]

mod binding;
mod bound;
mod change;
mod eval_cache;
mod eval_result;
mod kept_index;
mod kept_laws;
mod kept_rows;
mod kept_values;
mod known;
mod laws;
mod meeting;
mod property;
mod readers;
mod run;
mod settling;
mod shown;
mod sorted;

pub use binding::Binding;
pub use bound::{BINDINGS, Bound};
pub use change::{Change, ChangeKind};
pub use eval_cache::EvalCache;
pub use eval_result::{CacheEntry, EvalResult};
pub use kept_index::KeptIndex;
pub use kept_laws::{law_changes, law_keepings};
pub use known::{cell_at, is_bindable};
pub use laws::{law_chains, law_values};
pub use property::BindingError;
pub use run::outcome;
pub use shown::{GROUPS, Shown};
pub use sorted::{HasProperty, find_place, is_at};
