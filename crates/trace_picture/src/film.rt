//! The film of a history: what a picture shows of each of its states, and of each entry.
//!
//! Definitions, and the laws of how a film begins and goes on. To a contract a film is the list of its frames (`lane_picture`); `film_of` of
//! `specs/film/Filming` is that of a history of a script, and `picture_of` its picture. Who keeps a world beside a history finds in
//! `film_begins` and `film_goes_on` that one frame for each state makes this film. What is drawn of a film is left to
//! `lane_picture`.

mod laws;

pub use laws::{film_begins, film_goes_on};
