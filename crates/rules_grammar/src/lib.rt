//! The grammar of scripts, as data: which trees a list of tokens spells (`specs/Grammar.antt`).
//!
//! It has no code. Its one promise is the relation between trees and tokens, by cases on the tree; that at most one tree
//! is spelled is a law of `hs_grammar`, and reading is left to `hs_parse`.
#![tactic(auto)]
