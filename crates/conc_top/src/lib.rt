//! The top call: all that the program does, over a source, two sinks and a clock that are handed in.
//!
//! `run` asks `conc_task` what the words and the input come to, runs the script, and tells what the run printed, or its
//! history, and how the call ended; or it lists the outcomes of the script, judges its claims, prints it as a Haskell module, or
//! answers what is asked of a document. To a contract
//! a call is the answer that it came to, the history that it kept and the bytes that the sinks were told (`specs/Causes`,
//! `specs/Answers`).
//! Its one promise: each answer but want of memory comes only for its cause; where a script ran, the history is a run of the
//! one that the source had, or that `bench` names, from its first state to its ending, each law of every history holds of it,
//! and the sinks were told exactly what that run printed and the line of the ending; where outcomes were listed, the output
//! sink was told exactly the list, or the document that was asked for; where claims were judged, a line for each, and each verdict
//! tells of all runs; where a module was printed, its text. Which bytes a real stream gives or takes
//! is left to `hs_io`, which bytes are a script to `hs_compile`, how a run goes on to `conc_world`, which outcomes a script has
//! to `conc_outcomes`, which lines are claims to `claim_lines`, what a module says to `haskell_module`, which documents are runs to `trace_checker`, what a report says to `trace_report::tally`,
//! and what is drawn to `lane_picture`.
#![tactic(auto)]

mod asking;
mod ending;
mod judging;
mod listing;
mod running;
mod showing;
mod telling;
mod top;
mod tracing;

pub use claim_lines::Judged;
pub use conc_caps::RunEnd;
pub use ending::{Done, Ending, NotRun, OUT_OF_MEMORY};
pub use hs_compile::Refusal;
pub use outcome_listing::Extent;
pub use top::run;
pub use trace_report::{Reached, Verified};
