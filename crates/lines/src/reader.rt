ghost use Rattle.std.specs.Prelude.{◌≡◌, ◌-◌, length};
ghost use Rattle.std.specs.Iterator.{at_most};
ghost use Rattle.lines.specs.Lines.{NextLine};

// A part of the caller's own text, and the place where it begins there.
#[derive(Clone, Copy, PartialEq, Eq, Debug)]
pub struct Part<'a> {
    pub bytes: &'a [u8],
    pub at: usize,
}

// A reader of lines: the text, the place where the next line begins, and how many lines were read.
#[derive(Drop, Debug)]
pub struct LineReader<'a> {
    text: &'a [u8],
    at: usize,
    lines: usize,
}

impl<'a> LineReader<'a> {
    pub fn new(text: &'a [u8]) -> Self
        ensures text { result.text.now ≡ text.now }
        ensures at { result.at ≡ 0 }
        ensures lines { result.lines ≡ 0 }
    {
        LineReader {
            text,
            at: 0,
            lines: 0,
        }
    }

    // How many lines were read.
    pub fn lines(&self) -> usize
        ensures { result ≡ self.now.lines }
    {
        self.lines
    }
}

// The lines without their line feeds. A last line may have none.
impl<'a> Iterator for LineReader<'a> {
    type Item = Part<'a>;

    ghost next_gives = { NextLine };

    ghost remaining = { λ r. at_most (length r.text.now - r.at) };

    fn next(&mut self) -> Option<Part<'a>> {
        let at = self.at;
        if at >= self.text.len() {
            return None;
        }
        let rest = &self.text[at..];
        let len = rest.iter().position(|&b| b == b'\n').unwrap_or(rest.len());
        let end = at + len;
        self.at = if end < self.text.len() { end + 1 } else { end };
        self.lines = self.lines.saturating_add(1);
        Some(Part {
            bytes: &rest[..len],
            at,
        })
    }
}
