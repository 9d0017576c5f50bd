// What the programs over standard input print, into a lent buffer: what has no room in it is cut off. No function here asks anything of its
// caller.
#![tactic(auto)]

ghost use Rattle.std.specs.Prelude.{◌≡◌, ◌≤◌, [], ◌∷◌, length, take};
ghost use Rattle.std.proofs.lemmas.List.Edits.{sets};

// The answer to a line that can't be read.
pub const UNREADABLE: u8 = b'?';

// A lent buffer, and the place from which the next bytes are printed.
#[derive(Drop)]
pub struct Printer<'a> {
    out: &'a mut [u8],
    at: usize,
    pub ghost in_out: { at ≤ length out.now },
}

impl<'a> Printer<'a> {
    ghost use Rattle.print.specs.Printer.{Printed, Emptied};

    // Before the first byte.
    pub fn new(out: &'a mut [u8]) -> Printer<'a>
        ensures buffer { result.out.now ≡ out.old }
        ensures empty { result.at ≡ 0 }
        ensures same_buffer { result.out.ghost_name ≡ out.entry.ghost_name }
    {
        Printer { out, at: 0 }
    }

    pub fn put_byte(&mut self, b: u8)
        ensures { Printed (b ∷ []) self.old self.new }
    {
        if self.at < self.out.len() {
            self.out[self.at] = b;
            self.at += 1;
        }
    }

    pub fn put_bytes(&mut self, bytes: &[u8])
        ensures { Printed bytes.now self.old self.new }
    {
        let n = bytes.len().min(self.out.len() - self.at);
        let end = self.at + n;
        self.out[self.at..end].copy_from_slice(&bytes[..n]);
        self.at = end;
    }

    // What is printed.
    pub fn text(&self) -> &[u8]
        ensures { result.now ≡ take self.now.at self.now.out.now }
    {
        &self.out[..self.at]
    }

    // Writes what is printed to standard output; after that nothing is.
    pub fn flush(&mut self)
        ensures { Emptied self.old.out.now self.old self.new }
    {
        io::write_all(1, self.text());
        self.at = 0;
    }

    // Writes what is printed, and a newline.
    pub fn print_line(&mut self)
        ensures { Emptied (sets self.old.out.now self.old.at (10 ∷ [])) self.old self.new }
    {
        self.put_byte(b'\n');
        self.flush();
    }
}
