//! The typing rules as a function that lists every broken rule of a part of a script, and the laws that it says the
//! same as the rules. It has no code: `specs/` has the function, `proofs/` the laws.
//!
//! Its promise: a rule is in the list exactly where it is broken, a part has the type that the function gives exactly
//! where it has that type, and the least of a list comes before every other rule of it. The rules themselves are left
//! to `rules_typing`, and the checker to `typing_parts`.
#![tactic(auto)]
