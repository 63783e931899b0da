ghost use Rattle.std.specs.Prelude.{◌≡◌, ◌↔◌, IsTrue};
ghost use Rattle.std.specs.List.{position};
ghost use Rattle.rules_tokens.specs.Tokens.{BeginsComment};
ghost use Rattle.rules_tokens.specs.Tokens as spec;
ghost use Rattle.hs_lex.specs.Fronts.{StandsAt, Begins};

use crate::characters::is_line_feed;
use crate::front::Front;

/// A blank.
pub(crate) fn blank(rest: &[char]) -> Front
    requires { Begins spec.is_blank rest.now }
    ensures { StandsAt rest.now result }
{
    Front::Gap(1)
}

/// Whether the text begins with two dashes.
pub(crate) fn begins_comment(rest: &[char]) -> bool
    ensures { IsTrue result ↔ BeginsComment rest.now }
{
    rest.len() >= 2 && rest[0] == '-' && rest[1] == '-'
}

/// Where the line ends, if a line feed is there.
fn line_end(rest: &[char]) -> Option<usize>
    ensures { result ≡ position spec.is_line_feed rest.now }
{
    rest.iter().position(|c| is_line_feed(*c))
}

/// A comment: it goes up to the end of its line.
pub(crate) fn comment(rest: &[char]) -> Front
    requires { BeginsComment rest.now }
    ensures { StandsAt rest.now result }
{
    let body = &rest[2..];
    Front::Gap(2 + line_end(body).unwrap_or(body.len()))
}
