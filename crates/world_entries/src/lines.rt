//! The lines of threads that end by an exception that nothing catches.
ghost use Rattle.std.specs.Prelude.{◌≡◌, ◌++◌, [], codes, IfOk, true, string_bytes};
ghost use Rattle.std.specs.Fmt.{decimal};
ghost use Rattle.hs_rules.specs.Primitives.{line_feed};
ghost use Rattle.hs_rules.specs.Entries.{is_silent as is_silent_by, uncaught_line as uncaught_by};

use hs_base::{Exn, NoMemory};
use std::alloc::Global;

/// Whether a thread other than the main one ends by it without a line.
fn is_silent(e: &Exn) -> bool
    ensures { result ≡ is_silent_by e.now }
{
    matches!(e, Exn::ThreadKilled | Exn::BlockedIndefinitely)
}

/// The line of the main thread.
fn main_line(alloc: Global, text: &str) -> Result<String, NoMemory>
    ensures { IfOk result (λ line. string_bytes line ≡ codes "uncaught exception in main: " ++ text.now ++ line_feed) }
{
    let line = format!(in alloc; "uncaught exception in main: {}\n", text)?;
    Ok(line)
}

/// The line of another thread.
fn thread_line(alloc: Global, t: u32, text: &str) -> Result<String, NoMemory>
    ensures { IfOk result (λ line. string_bytes line ≡ codes "uncaught exception in thread " ++ decimal t ++ codes ": " ++ text.now ++ line_feed) }
{
    let line = format!(in alloc; "uncaught exception in thread {}: {}\n", t, text)?;
    Ok(line)
}

/// The line of a thread that ends by an exception that nothing catches.
pub fn uncaught(alloc: Global, t: u32, e: &Exn) -> Result<Vec<u8>, NoMemory>
    ensures { IfOk result (λ bytes. bytes.items ≡ uncaught_by t e.now) }
{
    if t == 0 {
        let text = e.text(alloc)?;
        return Ok(main_line(alloc, text.as_str())?.into_bytes());
    }
    if is_silent(e) {
        return Ok(Vec::new(alloc));
    }
    let text = e.text(alloc)?;
    Ok(thread_line(alloc, t, text.as_str())?.into_bytes())
}
