//! The elements of a picture: lines, boxes and words, each of a class that `style` colours.
ghost use Rattle.std.specs.Prelude.{◌≡◌, ◌++◌, OnOk, decimal};
ghost use Rattle.mr_drawing.specs.Elements.{opened, attribute, upright_text, level_text, box_text, placed, words_text, counted_text};

use crate::escape::push_shown;
use itoa::Buffer;
use std::alloc::AllocError;

/// Adds text of the picture's own, as it stands.
pub(crate) fn push(text: &mut Vec<u8>, own: &str) -> Result<(), AllocError>
    ensures { OnOk result (text.new.items ≡ text.old.items ++ own.now) }
{
    text.extend_from_slice(own.as_bytes())
}

/// Adds a number in decimal digits.
pub(crate) fn push_number(text: &mut Vec<u8>, number: usize) -> Result<(), AllocError>
    ensures { OnOk result (text.new.items ≡ text.old.items ++ decimal number) }
{
    let mut buffer = Buffer::new();
    text.extend_from_slice(buffer.format(number as u64).as_bytes())
}

/// Adds the beginning of an element.
pub(crate) fn push_opened(text: &mut Vec<u8>, name: &str, class: &str) -> Result<(), AllocError>
    ensures { OnOk result (text.new.items ≡ text.old.items ++ opened name.now class.now) }
{
    push(text, "<")?;
    push(text, name)?;
    push(text, " class='")?;
    push(text, class)?;
    push(text, "'")?;
    Ok(())
}

/// Adds an attribute that is a number.
pub(crate) fn push_attribute(
    text: &mut Vec<u8>,
    name: &str,
    number: usize,
) -> Result<(), AllocError>
    ensures { OnOk result (text.new.items ≡ text.old.items ++ attribute name.now number) }
{
    push(text, " ")?;
    push(text, name)?;
    push(text, "='")?;
    push_number(text, number)?;
    push(text, "'")?;
    Ok(())
}

/// Adds an upright line.
#[tactic(auto, unfolding(crate::specs::Elements::upright_text))]
pub(crate) fn push_upright(
    text: &mut Vec<u8>,
    class: &str,
    x: usize,
    from: usize,
    to: usize,
) -> Result<(), AllocError>
    ensures { OnOk result (text.new.items ≡ text.old.items ++ upright_text class.now x from to) }
{
    push_opened(text, "line", class)?;
    push_attribute(text, "x1", x)?;
    push_attribute(text, "y1", from)?;
    push_attribute(text, "x2", x)?;
    push_attribute(text, "y2", to)?;
    push(text, "/>\n")?;
    Ok(())
}

/// Adds a level line.
#[tactic(auto, unfolding(crate::specs::Elements::level_text))]
pub(crate) fn push_level(
    text: &mut Vec<u8>,
    class: &str,
    from: usize,
    to: usize,
    y: usize,
) -> Result<(), AllocError>
    ensures { OnOk result (text.new.items ≡ text.old.items ++ level_text class.now from to y) }
{
    push_opened(text, "line", class)?;
    push_attribute(text, "x1", from)?;
    push_attribute(text, "y1", y)?;
    push_attribute(text, "x2", to)?;
    push_attribute(text, "y2", y)?;
    push(text, "/>\n")?;
    Ok(())
}

/// Adds a box.
#[tactic(auto, unfolding(crate::specs::Elements::box_text))]
pub(crate) fn push_box(
    text: &mut Vec<u8>,
    class: &str,
    x: usize,
    y: usize,
    width: usize,
    height: usize,
) -> Result<(), AllocError>
    ensures { OnOk result (text.new.items ≡ text.old.items ++ box_text class.now x y width height) }
{
    push_opened(text, "rect", class)?;
    push_attribute(text, "x", x)?;
    push_attribute(text, "y", y)?;
    push_attribute(text, "width", width)?;
    push_attribute(text, "height", height)?;
    push(text, "/>\n")?;
    Ok(())
}

/// Adds the beginning of words at a place.
#[tactic(auto, unfolding(crate::specs::Elements::placed))]
pub(crate) fn push_placed(
    text: &mut Vec<u8>,
    class: &str,
    x: usize,
    y: usize,
) -> Result<(), AllocError>
    ensures { OnOk result (text.new.items ≡ text.old.items ++ placed class.now x y) }
{
    push_opened(text, "text", class)?;
    push_attribute(text, "x", x)?;
    push_attribute(text, "y", y)?;
    push(text, ">")?;
    Ok(())
}

/// Adds words at a place, escaped.
#[tactic(auto, unfolding(crate::specs::Elements::words_text))]
pub(crate) fn push_words(
    text: &mut Vec<u8>,
    class: &str,
    x: usize,
    y: usize,
    words: &[u8],
) -> Result<(), AllocError>
    ensures { OnOk result (text.new.items ≡ text.old.items ++ words_text class.now x y words.now) }
{
    push_placed(text, class, x, y)?;
    push_shown(text, words)?;
    push(text, "</text>\n")?;
    Ok(())
}

/// Adds a word of the picture's own and a number at a place.
#[tactic(auto, unfolding(crate::specs::Elements::counted_text))]
pub(crate) fn push_counted(
    text: &mut Vec<u8>,
    class: &str,
    x: usize,
    y: usize,
    word: &str,
    number: usize,
) -> Result<(), AllocError>
    ensures { OnOk result (text.new.items ≡ text.old.items ++ counted_text class.now x y word.now number) }
{
    push_placed(text, class, x, y)?;
    push(text, word)?;
    push_number(text, number)?;
    push(text, "</text>\n")?;
    Ok(())
}
