/// The parts of a text, read one after another: words and numbers between blanks, say. A number that isn't one is 0, and
/// that is noted, so that what reads them goes on in a straight line and asks once.
#[derive(Clone, Copy)]
pub struct TextParts<'a> {
    left: &'a str,
    between: char,
    is_wrong: bool,
}

impl<'a> TextParts<'a> {
    /// The parts between these characters.
    pub fn of(text: &'a str, between: char) -> TextParts<'a> {
        TextParts {
            left: text,
            between,
            is_wrong: false,
        }
    }

    /// The next part; empty where none is left.
    pub fn word(&mut self) -> &'a str {
        let (word, left) = cut(self.left, self.between);
        self.left = left;
        word
    }

    /// The next part as a number.
    pub fn number(&mut self) -> u32 {
        match self.word().parse::<u32>() {
            Ok(number) => number,
            Err(_) => {
                self.is_wrong = true;
                0
            }
        }
    }

    /// The next part as a number of 64 bits.
    pub fn long(&mut self) -> u64 {
        match self.word().parse::<u64>() {
            Ok(number) => number,
            Err(_) => {
                self.is_wrong = true;
                0
            }
        }
    }

    /// The next part as a number of 16 bits.
    pub fn short(&mut self) -> u16 {
        let number = self.number();
        self.is_wrong |= number > 65_535;
        number.min(65_535) as u16
    }

    /// The next part as a number of 8 bits.
    pub fn byte(&mut self) -> u8 {
        let number = self.number();
        self.is_wrong |= number > 255;
        number.min(255) as u8
    }

    /// All that is left.
    pub fn left(&self) -> &'a str {
        self.left
    }

    /// Notes that a part isn't what it must be.
    pub fn refuse(&mut self) {
        self.is_wrong = true;
    }

    /// Whether some part wasn't what it must be.
    pub fn is_wrong(&self) -> bool {
        self.is_wrong
    }

    /// Whether each part was what it must be, and none is left.
    pub fn is_read(&self) -> bool {
        !self.is_wrong && self.left.is_empty()
    }
}

/// What comes before the first of these characters, and what after it; without one all comes before.
pub fn cut(text: &str, between: char) -> (&str, &str) {
    text.split_once(between).unwrap_or((text, ""))
}

/// What a table has under a name.
pub fn named<T: Copy>(table: &[(&str, T)], name: &str) -> Option<T> {
    for (known, value) in table {
        if *known == name {
            return Some(*value);
        }
    }
    None
}
