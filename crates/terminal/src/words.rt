// The words of a line, between blanks.

// Letters stay bytes, without an enum: what is typed or piped is text, and every byte of it has its answer.
fn is_blank(letter: u8) -> bool {
    matches!(letter, b' ' | b'\t' | b'\r')
}

// The words that are still to come.
#[derive(Clone, Copy)]
pub(crate) struct Words<'a> {
    rest: &'a [u8],
}

impl<'a> Words<'a> {
    pub(crate) fn of(line: &'a [u8]) -> Self {
        Words { rest: line }
    }

    // Whether nothing but blanks is left.
    pub(crate) fn is_over(&self) -> bool {
        self.rest.iter().all(|letter| is_blank(*letter))
    }
}

impl<'a> Iterator for Words<'a> {
    type Item = &'a [u8];

    fn next(&mut self) -> Option<&'a [u8]> {
        let line = self.rest;
        let from = line.iter().position(|letter| !is_blank(*letter))?;
        let begun = &line[from..];
        let to = begun.iter().position(|letter| is_blank(*letter));
        let (word, rest) = begun.split_at(to.unwrap_or(begun.len()));
        self.rest = rest;
        Some(word)
    }
}
