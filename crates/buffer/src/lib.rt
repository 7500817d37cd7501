// A lent buffer that is filled from its start on. Public for the crates that write lines.
#![tactic(auto)]

ghost use Rattle.std.specs.Prelude.{◌≡◌, ◌<◌, ◌≤◌, [], ◌∷◌, length};

// The lent buffer, and the place after what was written so far.
#[derive(Debug, Drop)]
pub struct Cursor<'a> {
    buffer: &'a mut [u8],
    at: usize,
    ghost within: { at ≤ length buffer.now },
}

impl<'a> Cursor<'a> {
    ghost use Rattle.buffer.specs.Cursor.{written, rest, Begins, Appends};

    pub fn new(buffer: &'a mut [u8]) -> Cursor<'a>
        ensures { Begins buffer.entry result }
    {
        Cursor { buffer, at: 0 }
    }

    // How many bytes are written, which is the place after them.
    pub fn position(&self) -> usize
        ensures { result ≡ length (written self.now) }
    {
        self.at
    }

    pub fn push(&mut self, byte: u8)
        requires { 0 < length (rest self.old) }
        ensures { Appends (byte ∷ []) self.old self.new }
    {
        self.buffer[self.at] = byte;
        self.at += 1;
    }

    pub fn extend_from_slice(&mut self, bytes: &[u8])
        requires { length bytes.now ≤ length (rest self.old) }
        ensures { Appends bytes.now self.old self.new }
    {
        let end = self.at + bytes.len();
        self.buffer[self.at..end].copy_from_slice(bytes);
        self.at = end;
    }
}
