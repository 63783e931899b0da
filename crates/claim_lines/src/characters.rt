ghost use Rattle.std.specs.Prelude.{◌≡◌, ◌≤◌, drop, length, take};
ghost use Rattle.std.specs.Char as char;
ghost use Rattle.std.specs.List.{prefix_len};
ghost use Rattle.rules_tokens.specs.Tokens as tokens;
ghost use Rattle.claim_lines.specs.Lines as lines;

/// Whether a character may stand before the dashes, between words and behind the last one.
fn separates(c: char) -> bool
    ensures { result ≡ lines.separates c }
{
    c == ' ' || c == '\t' || c == '\r'
}

/// Whether a character may stand between the dashes and the mark.
fn is_space_or_tab(c: char) -> bool
    ensures { result ≡ lines.is_space_or_tab c }
{
    c == ' ' || c == '\t'
}

/// How many characters that separate words a text begins with.
pub(crate) fn blanks_len(text: &[char]) -> usize
    ensures { result ≡ prefix_len lines.separates text.now }
{
    text.iter().take_while(|c| separates(**c)).count()
}

/// How many spaces and tabs a text begins with.
pub(crate) fn spaces_len(text: &[char]) -> usize
    ensures { result ≡ prefix_len lines.is_space_or_tab text.now }
{
    text.iter().take_while(|c| is_space_or_tab(**c)).count()
}

/// How many of the letters a to z a text begins with.
pub(crate) fn letters_len(text: &[char]) -> usize
    ensures { result ≡ prefix_len char.is_ascii_lowercase text.now }
{
    text.iter().take_while(|c| c.is_ascii_lowercase()).count()
}

/// The character that an escape stands for, by the one behind its backslash.
pub(crate) fn escaped(c: char) -> Option<char>
    ensures { result ≡ tokens.escaped c }
{
    match c {
        '"' => Some('"'),
        '\\' => Some('\\'),
        'n' => Some('\n'),
        't' => Some('\t'),
        _ => None,
    }
}

/// The first characters of a text.
pub(crate) fn front(text: &[char], len: usize) -> &[char]
    requires { len ≤ length text.now }
    ensures { result.now ≡ take len text.now }
{
    &text[..len]
}

/// What stands behind the first characters of a text.
pub(crate) fn past(text: &[char], len: usize) -> &[char]
    requires { len ≤ length text.now }
    ensures { result.now ≡ drop len text.now }
{
    &text[len..]
}
