//! Text as an SVG document has it.
//!
//! To a contract a text is its bytes. The promise: what is pushed is the text with each character as XML 1.0 can have it
//! (`escaped` of `specs/svg/Escaping`), so that nothing in it is taken for a tag, an entity or the end of an attribute.

mod escaping;

pub use escaping::push_escaped;
