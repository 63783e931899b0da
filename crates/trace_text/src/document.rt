ghost use Rattle.std.specs.Prelude.{◌≡◌, ◌+◌, ◌≤◌, ◌==◌, ℕ, MatchOption};
ghost use Rattle.std.specs.List.{position};
ghost use Rattle.trace_text.specs.spelling.Traces.{IsScriptLine};

/// The line between a trace and its script.
pub const SCRIPT_LINE: &[u8] = b"script\n";

/// Where the line `script` of a document begins, and where the script behind it begins: the first line that is exactly that
/// word and ends with a line feed. `None` exactly where no line is.
pub fn split(document: &[u8]) -> Option<(usize, usize)>
    ensures { MatchOption result
        ((at : ℕ) → ¬ IsScriptLine document.now at)
        (λ found. IsScriptLine document.now found.0 × ((at : ℕ) → IsScriptLine document.now at → found.0 ≤ at) × (found.1 ≡ found.0 + 7)) }
{
    let mut begin = 0;
    loop {
        let rest = &document[begin..];
        if rest.starts_with(SCRIPT_LINE) {
            return Some((begin, begin + SCRIPT_LINE.len()));
        }
        begin += line_end(rest)? + 1;
    }
}

/// Where the first line feed is.
fn line_end(rest: &[u8]) -> Option<usize>
    ensures { result ≡ position (λ b. b == 10) rest.now }
{
    rest.iter().position(|b| *b == b'\n')
}
