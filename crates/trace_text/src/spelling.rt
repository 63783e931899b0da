//! Written histories: which bytes spell which entries, and what a document of a history and its script is.
//!
//! It has no code (`specs/spelling/Traces.antt`). To a contract a text is the list of its bytes, and each relation is one over whole
//! texts. The one promise: the definitions say exactly which texts are traces, and which line is the first that is none of a
//! trace. Writing and reading are left to `trace_text`, and what a history may do to `hs_rules`.
