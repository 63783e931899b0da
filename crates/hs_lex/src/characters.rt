ghost use Rattle.std.specs.Prelude.{◌≡◌};
ghost use Rattle.rules_tokens.specs.Tokens as spec;

/// A character that separates tokens.
pub(crate) fn is_blank(c: char) -> bool
    ensures { result ≡ spec.is_blank c }
{
    c == ' ' || c == '\t' || c == '\r' || c == '\n'
}

pub(crate) fn is_line_feed(c: char) -> bool
    ensures { result ≡ spec.is_line_feed c }
{
    c == '\n'
}

pub(crate) fn starts_word(c: char) -> bool
    ensures { result ≡ spec.starts_word c }
{
    c == '_' || unicode_ident::is_xid_start(c)
}

pub(crate) fn continues_word(c: char) -> bool
    ensures { result ≡ spec.continues_word c }
{
    c == '\'' || unicode_ident::is_xid_continue(c)
}

/// The character that an escape stands for, by the one behind its backslash.
pub(crate) fn escaped(c: char) -> Option<char>
    ensures { result ≡ spec.escaped c }
{
    match c {
        '"' => Some('"'),
        '\\' => Some('\\'),
        'n' => Some('\n'),
        't' => Some('\t'),
        _ => None,
    }
}
