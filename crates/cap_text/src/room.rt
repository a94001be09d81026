ghost use Rattle.std.specs.Prelude.{◌≡◌, ◌+◌, length, decimal, string_bytes, IfOk};
ghost use Rattle.std.specs.Fmt.{signed_decimal};
ghost use Rattle.cap_text.specs.Fault.{name_1};
ghost use Rattle.cap_text.specs.Room.{HasRoom, Writes, IsEmpty, WritesAtMost};

use itoa::Buffer;
use std::alloc::{AllocError, Global};
use std::marker::Model;

/// A text in memory that was taken before, with room for what is written into it.
#[derive(Drop)]
pub struct Room {
    text: String,
}

impl Model for Room {
    ghost use Rattle.cap_text.specs.Room.{Roomed};

    ghost Value = { Roomed };

    ghost use Rattle.std.specs.Prelude.{string_bytes, string_len, string_capacity};

    ghost view = { λ r. record { text = string_bytes r.text; used = string_len r.text; whole = string_capacity r.text } };
}

impl Room {
    /// Takes the memory for a text of at most so many bytes.
    pub fn new(alloc: Global, most: usize) -> Result<Room, AllocError>
        ensures empty { IfOk result (λ r. IsEmpty r) }
        ensures room { IfOk result (λ r. HasRoom r most) }
    {
        Ok(Room {
            text: String::with_capacity(alloc, most)?,
        })
    }

    /// Writes a piece of text.
    pub fn write(&mut self, piece: &str)
        requires { HasRoom self.old (length piece.now) }
        ensures { Writes self.old self.new piece.now }
    {
        let _ = self.text.push_str(piece);
    }

    /// Writes a number in decimal.
    pub fn write_number(&mut self, n: u16)
        requires { HasRoom self.old 5 }
        ensures writes { Writes self.old self.new (decimal n) }
        ensures few { WritesAtMost self.old self.new 5 }
    {
        self.write(Buffer::new().format(n));
    }

    /// Writes a number of up to 64 bits in decimal.
    pub fn write_long(&mut self, n: u64)
        requires { HasRoom self.old 20 }
        ensures writes { Writes self.old self.new (decimal n) }
        ensures few { WritesAtMost self.old self.new 20 }
    {
        self.write(Buffer::new().format(n));
    }

    /// Writes a name and, after a space, a number.
    pub fn write_named(&mut self, name: &str, n: u16)
        requires { HasRoom self.old (length name.now + 6) }
        ensures writes { Writes self.old self.new (name_1 name.now n) }
        ensures few { WritesAtMost self.old self.new (length name.now + 6) }
    {
        self.write(name);
        self.write(" ");
        self.write_number(n);
    }

    /// Writes a signed number in decimal.
    pub fn write_signed(&mut self, n: i32)
        requires { HasRoom self.old 11 }
        ensures writes { Writes self.old self.new (signed_decimal n) }
        ensures few { WritesAtMost self.old self.new 11 }
    {
        self.write(Buffer::new().format(n));
    }

    /// The text that was written.
    pub fn into_text(self) -> String
        ensures { string_bytes result ≡ self.text }
    {
        self.text
    }
}
