//! What a thread writes that ends by an exception which nothing catches.
ghost use Rattle.std.specs.Prelude.{◌≡◌, ◌++◌, codes, IfOk, string_bytes};
ghost use Rattle.std.specs.Fmt.{decimal};
ghost use Rattle.hs_rules.specs.Primitives.{line_feed};
ghost use Rattle.hs_rules.specs.Entries.{is_silent as is_silent_by, uncaught_line as uncaught_by};

use hs_base::{Exn, NoMemory};
use std::alloc::Global;

/// Whether a thread other than the main one ends by it without a line.
fn is_silent(exn: &Exn) -> bool
    ensures { result ≡ is_silent_by exn.now }
{
    matches!(exn, Exn::ThreadKilled | Exn::BlockedIndefinitely)
}

/// The line of the main thread.
fn main_line(alloc: Global, text: &str) -> Result<String, NoMemory>
    ensures { IfOk result (λ line. string_bytes line ≡ codes "uncaught exception in main: " ++ text.now ++ line_feed) }
{
    let line = format!(in alloc; "uncaught exception in main: {}\n", text)?;
    Ok(line)
}

/// The line of another thread.
fn thread_line(alloc: Global, t: u32, text: &str) -> Result<String, NoMemory>
    ensures { IfOk result (λ line. string_bytes line ≡ codes "uncaught exception in thread " ++ decimal t ++ codes ": " ++ text.now ++ line_feed) }
{
    let line = format!(in alloc; "uncaught exception in thread {}: {}\n", t, text)?;
    Ok(line)
}

/// The line of a thread that ends by an exception that nothing catches.
pub fn uncaught(alloc: Global, t: u32, exn: &Exn) -> Result<String, NoMemory>
    ensures { IfOk result (λ line. string_bytes line ≡ uncaught_by t exn.now) }
{
    if t == 0 {
        let text = exn.text(alloc)?;
        return main_line(alloc, text.as_str());
    }
    if is_silent(exn) {
        return Ok(String::new(alloc));
    }
    let text = exn.text(alloc)?;
    thread_line(alloc, t, text.as_str())
}
