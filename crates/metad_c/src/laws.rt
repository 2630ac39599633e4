//! A list of calls on one handle, and the theorem about what they do.
ghost use Rattle.metad_c.specs.Calls.{CallsAreIsolated, CallsGoOn};

/// Sessions are isolated in every list of calls on one handle, whatever memory is refused: a session receives what it
/// would receive alone, if no command of a session that influences it was answered `E21` or `E20`. A call with status 6
/// loses its text and nothing else, and a call with status 5 loses nothing. Calls of `metad_inner_output_len` change
/// nothing, so they are not listed.
///
/// There is nothing to run: the clauses are the theorems.
pub fn law_calls()
    ensures isolated { CallsAreIsolated }
    ensures more { CallsGoOn }
{}
