use std::fmt;
use std::fmt::Write;

/// A text as standard error shows it: as in a string of Rust's, but for the quotes round it, and quotes in it stand as
/// they are. So no control character of it comes to a terminal.
#[derive(Clone, Copy)]
pub struct Escaped<'t>(pub &'t str);

impl fmt::Display for Escaped<'_> {
    fn fmt<W: Write>(&self, f: &mut fmt::Formatter<W>) -> fmt::Result {
        let mut quotes = self.0.chars().filter(|c| is_quote(*c));
        for part in self.0.split(is_quote) {
            write!(f, "{}", part.escape_debug())?;
            if let Some(quote) = quotes.next() {
                f.write_char(quote)?;
            }
        }
        Ok(())
    }
}

fn is_quote(c: char) -> bool {
    c == '\'' || c == '"'
}
