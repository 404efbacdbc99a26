// Words and the spaces between them, as a line has them.
ghost use Rattle.std.specs.Prelude.{length};
ghost use Rattle.std.specs.Iterator.{at_most};

// Whether a character is a space, a tab or a carriage return.
pub(crate) fn is_space(c: &u8) -> bool {
    matches!(*c, b' ' | b'\t' | b'\r')
}

// The words of a line, one after the other, and what stands behind those that were taken.
#[derive(Drop)]
pub(crate) struct Words<'a> {
    pub(crate) rest: &'a [u8],
}

impl<'a> Iterator for Words<'a> {
    type Item = &'a [u8];

    ghost remaining = { λ s. at_most (length s.rest.now) };

    fn next(&mut self) -> Option<&'a [u8]> {
        let start = self.rest.iter().position(|c| !is_space(c))?;
        let word = &self.rest[start..];
        let (_, tail) = word.split_first()?;
        let n = tail.iter().position(is_space).unwrap_or(tail.len());
        self.rest = &tail[n..];
        Some(&word[..=n])
    }
}
