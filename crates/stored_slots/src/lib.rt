//! Functors: callables that the program hands to the server before it runs, each with the fact that what
//! it answers is its body with the state and the arguments put in, and the state that follows. A signal is connected to one by its name.
#![tactic(auto)]

mod functor;
mod limit;
mod stored;
mod table;

pub use functor::Functor;
pub use limit::FUNCTORS;
pub use stored::Closure;
pub use table::Functors;
