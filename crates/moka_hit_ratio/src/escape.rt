//! Texts within XML.
use std::fmt;

/// A text as XML has it, between tags and within attributes.
#[derive(Clone, Copy)]
pub struct Escaped<'a>(pub &'a str);

impl fmt::Display for Escaped<'_> {
    fn fmt<W: fmt::Write>(&self, f: &mut fmt::Formatter<W>) -> fmt::Result {
        for character in self.0.chars() {
            match in_place_of(character) {
                Some(text) => f.write_str(text)?,
                None => f.write_char(character)?,
            }
        }
        Ok(())
    }
}

/// What XML has in place of a character that cannot stand there as it is.
fn in_place_of(character: char) -> Option<&'static str> {
    match character {
        '&' => Some("&amp;"),
        '<' => Some("&lt;"),
        '>' => Some("&gt;"),
        '"' => Some("&quot;"),
        '\'' => Some("&apos;"),
        // XML has no way to write these but tab and line ends, which no title needs.
        '\0'..='\u{1f}' | '\u{fffe}' | '\u{ffff}' => Some("\u{fffd}"),
        _ => None,
    }
}
