// Rows of numbers and of bytes in words.
use std::fmt;

// The entries of a list, with a comma between two of them. Only other crates make this.
#[derive(Clone, Copy)]
pub struct Entries<'a>(pub &'a [u32]);

impl<'a> fmt::Display for Entries<'a> {
    fn fmt<W: fmt::Write>(&self, f: &mut fmt::Formatter<W>) -> fmt::Result {
        for (place, entry) in self.0.iter().enumerate() {
            if 0 < place {
                write!(f, ", ")?;
            }
            write!(f, "{entry}")?;
        }
        Ok(())
    }
}

// Bytes, each in two hexadecimal digits after a space. Only other crates make this.
#[derive(Clone, Copy)]
pub struct Bytes<'a>(pub &'a [u8]);

impl<'a> fmt::Display for Bytes<'a> {
    fn fmt<W: fmt::Write>(&self, f: &mut fmt::Formatter<W>) -> fmt::Result {
        for byte in self.0 {
            write!(f, " {byte:02x}")?;
        }
        Ok(())
    }
}

// Bytes that are text, as that text, in one piece; bytes that are none, each as the character of its number. Only other crates make this.
#[derive(Clone, Copy)]
pub struct Text<'a>(pub &'a [u8]);

impl<'a> fmt::Display for Text<'a> {
    fn fmt<W: fmt::Write>(&self, f: &mut fmt::Formatter<W>) -> fmt::Result {
        if let Ok(text) = str::from_utf8(self.0) {
            return f.write_str(text);
        }
        for byte in self.0 {
            let character = char::from(*byte);
            write!(f, "{character}")?;
        }
        Ok(())
    }
}
