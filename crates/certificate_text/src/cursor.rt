//! A text, line by line.
ghost use Rattle.std.specs.Prelude.{◌≡◌, ◌++◌, ◌+◌, ◌<◌, ◌^◌, length, MatchOption};
ghost use Rattle.certificate_text.specs.ReadText.{IsLine, ended};
ghost use Rattle.certificate_text.specs.Cursor.{HasPassed};

/// Where a text is read.
#[derive(Drop)]
pub(crate) struct Cursor<'a> {
    /// What is left of the text.
    pub rest: &'a [u8],
    /// The number of the next line, from 1.
    pub number: u32,
    /// How many more Branch nodes the tree may have.
    pub branches: u32,
}

impl<'a> Cursor<'a> {
    /// The next line, without its line feed; None, and nothing is passed, where no line feed is left.
    pub fn next(&mut self) -> Option<&'a [u8]>
        requires { self.old.number + length self.old.rest.now < 2 ^ 32 }
        ensures { MatchOption result (IsLine self.old.rest.now × (self.new ≡ self.old))
            (λ line. HasPassed self.old self.new line.now) }
    {
        let (line, after) = split_line(self.rest)?;
        self.rest = after;
        self.number += 1;
        Some(line)
    }
}

// The first line without its line feed, and what stands behind that.
fn split_line(rest: &[u8]) -> Option<(&[u8], &[u8])>
    ensures { MatchOption result (IsLine rest.now)
        (λ parts. IsLine parts.0.now × (rest.now ≡ ended parts.0.now ++ parts.1.now)) }
{
    let end = rest.iter().position(|byte| *byte == b'\n')?;
    Some((&rest[..end], &rest[end + 1..]))
}
