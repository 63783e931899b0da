//! The elements of SVG that a picture is made of.
ghost use Rattle.std.specs.Prelude.{◌≡◌, ◌++◌, OnOk, codes, string_bytes};
ghost use Rattle.std.specs.Fmt.{decimal};
ghost use Rattle.lane_picture.specs.svg.Escaping.{escaped};
ghost use Rattle.lane_picture.specs.Pieces.{rect, line, circle, letter, lozenge, text_start, text_end, number_end, label, tag, turned_number, turn, turned, group, group_end};

use crate::svg::push_escaped;
use std::alloc::AllocError;

#[tactic(auto, unfolding(crate::specs::Pieces::rect))]
pub(crate) fn write_rect(
    text: &mut String,
    class: &str,
    x: u64,
    y: u64,
    width: u64,
    height: u64,
) -> Result<(), AllocError>
    ensures { OnOk result (string_bytes text.new ≡ string_bytes text.old ++ rect class.now x y width height) }
{
    write!(text, "<rect class='{class}' x='{x}' y='{y}")?;
    write!(text, "' width='{width}' height='{height}'/>")
}

#[tactic(auto, unfolding(crate::specs::Pieces::line))]
pub(crate) fn write_line(
    text: &mut String,
    class: &str,
    x: u64,
    from: u64,
    to: u64,
) -> Result<(), AllocError>
    ensures { OnOk result (string_bytes text.new ≡ string_bytes text.old ++ line class.now x from to) }
{
    write!(text, "<line class='{class}' x1='{x}' y1='{from}")?;
    write!(text, "' x2='{x}' y2='{to}'/>")
}

fn write_circle(text: &mut String, x: u64, y: u64) -> Result<(), AllocError>
    ensures { OnOk result (string_bytes text.new ≡ string_bytes text.old ++ circle x y) }
{
    write!(text, "<circle cx='{x}' cy='{y}' r='8'/>")
}

fn write_letter(text: &mut String, sign: &str, x: u64, y: u64) -> Result<(), AllocError>
    ensures { OnOk result (string_bytes text.new ≡ string_bytes text.old ++ letter sign.now x y) }
{
    write!(
        text,
        "<text class='letter' x='{x}' y='{y}' dy='4'>{sign}</text>"
    )
}

/// A letter in a circle.
pub(crate) fn write_disc(text: &mut String, sign: &str, x: u64, y: u64) -> Result<(), AllocError>
    ensures { OnOk result (string_bytes text.new ≡ string_bytes text.old ++ (circle x y ++ letter sign.now x y)) }
{
    write_circle(text, x, y)?;
    write_letter(text, sign, x, y)
}

pub(crate) fn write_lozenge(text: &mut String, x: u64, y: u64) -> Result<(), AllocError>
    ensures { OnOk result (string_bytes text.new ≡ string_bytes text.old ++ lozenge x y) }
{
    write!(text, "<path class='hit' d='M{x} {y}l9 12l-9 12l-9 -12z'/>")
}

#[tactic(auto, unfolding(crate::specs::Pieces::text_end))]
fn write_escaped(text: &mut String, plain: &str) -> Result<(), AllocError>
    ensures { OnOk result (string_bytes text.new ≡ string_bytes text.old ++ text_end (escaped plain.now)) }
{
    push_escaped(text, plain)?;
    text.push_str("</text>")
}

fn write_text_start(text: &mut String, class: &str, x: u64, y: u64) -> Result<(), AllocError>
    ensures { OnOk result (string_bytes text.new ≡ string_bytes text.old ++ text_start class.now x y) }
{
    write!(text, "<text class='{class}' x='{x}' y='{y}'>")
}

fn write_number_end(text: &mut String, word: &str, n: u64) -> Result<(), AllocError>
    ensures { OnOk result (string_bytes text.new ≡ string_bytes text.old ++ number_end word.now n) }
{
    write!(text, "{word}{n}</text>")
}

pub(crate) fn write_label(
    text: &mut String,
    class: &str,
    x: u64,
    y: u64,
    plain: &str,
) -> Result<(), AllocError>
    ensures { OnOk result (string_bytes text.new ≡ string_bytes text.old ++ label class.now x y plain.now) }
{
    write_text_start(text, class, x, y)?;
    write_escaped(text, plain)
}

/// A word and a number.
pub(crate) fn write_tag(
    text: &mut String,
    class: &str,
    x: u64,
    y: u64,
    word: &str,
    n: u64,
) -> Result<(), AllocError>
    ensures { OnOk result (string_bytes text.new ≡ string_bytes text.old ++ tag class.now x y word.now n) }
{
    write_text_start(text, class, x, y)?;
    write_number_end(text, word, n)
}

pub(crate) fn write_turned_number(
    text: &mut String,
    angle: &str,
    x: u64,
    y: u64,
    n: u64,
) -> Result<(), AllocError>
    ensures { OnOk result (string_bytes text.new ≡ string_bytes text.old ++ turned_number angle.now x y n) }
{
    write_turn(text, angle, x, y)?;
    write_number_end(text, "", n)
}

fn write_turn(text: &mut String, angle: &str, x: u64, y: u64) -> Result<(), AllocError>
    ensures { OnOk result (string_bytes text.new ≡ string_bytes text.old ++ turn angle.now x y) }
{
    write!(
        text,
        "<text transform='translate({x} {y}) rotate({angle})'>"
    )
}

pub(crate) fn write_turned(
    text: &mut String,
    angle: &str,
    x: u64,
    y: u64,
    plain: &str,
) -> Result<(), AllocError>
    ensures { OnOk result (string_bytes text.new ≡ string_bytes text.old ++ turned angle.now x y plain.now) }
{
    write_turn(text, angle, x, y)?;
    write_escaped(text, plain)
}

fn write_title(text: &mut String, title: &str) -> Result<(), AllocError>
    ensures { OnOk result (string_bytes text.new ≡ string_bytes text.old ++ (escaped title.now ++ codes "</title>")) }
{
    push_escaped(text, title)?;
    text.push_str("</title>")
}

#[tactic(auto, unfolding(crate::specs::Pieces::group))]
pub(crate) fn write_group(text: &mut String, class: &str, title: &str) -> Result<(), AllocError>
    ensures { OnOk result (string_bytes text.new ≡ string_bytes text.old ++ group class.now title.now) }
{
    write!(text, "<g class='{class}'><title>")?;
    write_title(text, title)
}

#[tactic(auto, unfolding(crate::specs::Pieces::group_end))]
pub(crate) fn write_group_end(text: &mut String) -> Result<(), AllocError>
    ensures { OnOk result (string_bytes text.new ≡ string_bytes text.old ++ group_end) }
{
    text.push_str("</g>\n")
}
