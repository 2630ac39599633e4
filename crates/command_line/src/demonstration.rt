//! The classes that are used if no class file is given.

/// A class file of two classes, to try the server with. `Cell` holds values: a property `x` with a
/// signal that notifies of changes, and three without one (`y`, `z`, `flag`). These four can have
/// bindings, and a fifth, `big`, cannot. Its slot `setX(int)` writes `x`, and `seen(int)` does
/// nothing. `Probe` has slots that act on whoever sent the signal or on themselves while it is being
/// sent: they connect and disconnect (`swap`), emit (`again`), delete the sender and then write to
/// it (`kill`), take a child out of the tree before its parent goes (`rescue`), and delete
/// themselves (`drop`).
pub const DEMONSTRATION: &str = r#"{"classes":[
{"name":"Cell","super":"QObject","signals":["xChanged(int)"],
"slots":[{"sig":"seen(int)","body":[]},
{"sig":"setX(int)","body":[{"set":"x","to":{"arg":0}}]}],
"properties":[
{"name":"x","type":"int","notify":"xChanged(int)","bindable":true},
{"name":"y","type":"int","bindable":true},
{"name":"z","type":"int","bindable":true},
{"name":"flag","type":"bool","bindable":true},
{"name":"big","type":"qulonglong"}]},
{"name":"Probe","super":"QObject","signals":["ping()"],
"slots":[{"sig":"note()","body":[]},{"sig":"late()","body":[]},
{"sig":"swap()","body":[
{"connect":"ping()","of":"sender","to":"self","method":"late()"},
{"disconnect":"ping()","of":"sender","to":"self","method":"note()"}]},
{"sig":"again()","body":[{"emit":"ping()","of":"sender","args":[]}]},
{"sig":"kill()","body":[{"delete":"sender"},
{"set":"objectName","of":"sender","to":{"const":"x"}}]},
{"sig":"rescue()","body":[{"setParent":null,"of":{"child":"c"}},
{"delete":"sender"}]},
{"sig":"drop()","body":[{"delete":"self"}]}]}]}"#;
