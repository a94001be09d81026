ghost use Rattle.std.specs.Prelude.{◌≡◌, ◌≤◌, ◌++◌, length, Some, codes, decimal, ◌+◌, [], nat_le, string_bytes, string_len};
ghost use Rattle.std.specs.Prelude.{string_capacity, IfOk, if◌then◌else◌};
ghost use Rattle.cap_files.specs.FileName.{name_text, part_name, extension, path_of};

use cap_bytes::Part;
use itoa::Buffer;
use std::alloc::{AllocError, Global};
use std::marker::Model;
use std::rt::Files;
use std::{fmt, fs, io};

/// The name of a part's file in its folder, without its extension (section 4.1.2 of the specification). It prints as that
/// text.
#[derive(Clone, Copy)]
pub struct FileName {
    pub(crate) stem: &'static str,
    pub(crate) number: Option<u8>,
}

/// The name of the file of a part: of the roles, of a component, of a Load file, of a listing, or of a custom component.
pub fn file_name(part: Part) -> FileName
    ensures name { name_text result ≡ part_name part.0 }
    ensures short { length (name_text result) ≤ 12 }
{
    let stem = match part.0 {
        0 => "Roles",
        1 => "Header",
        2 => "Directory",
        3 => "Applet",
        4 => "Import",
        5 => "ConstantPool",
        6 => "Class",
        7 => "Method",
        8 => "StaticField",
        9 => "RefLocation",
        10 => "Export",
        11 => "Descriptor",
        12 => "Debug",
        13 => "Load",
        14 => "Listing",
        number => return custom_name(number),
    };
    FileName { stem, number: None }
}

/// The extension of the file of a part: a listing is a text.
pub(crate) fn extension(part: Part) -> &'static str
    ensures extension { result.now ≡ extension part.0 }
    ensures short { length result.now ≡ 4 }
{
    match part.0 {
        14 => ".txt",
        _ => ".cap",
    }
}

fn custom_name(number: u8) -> FileName
    ensures name { name_text result ≡ codes "Custom" ++ decimal number }
    ensures short { length (name_text result) ≤ 12 }
{
    FileName {
        stem: "Custom",
        number: Some(number),
    }
}

impl fmt::Display for FileName {
    ghost output = { λ name. Some (name_text name) };

    fn fmt<W: fmt::Write>(&self, f: &mut fmt::Formatter<W>) -> fmt::Result {
        let stem = self.stem;
        match self.number {
            Some(number) => write!(f, "{stem}{number}"),
            None => write!(f, "{stem}"),
        }
    }
}

// What a path has after its folder's word at most, as `/ConstantPool.cap`.
const LONGEST_NAME: usize = 17;

/// The room for a path, taken when it is made: for folders' words of at most `longest` bytes.
#[derive(Drop)]
pub(crate) struct Path {
    text: String,
    longest: usize,
}

impl Model for Path {
    ghost use Rattle.cap_files.specs.Path.{PathRoom};

    ghost Value = { PathRoom };

    ghost use Rattle.std.specs.Prelude.{◌+◌, ◌≤◌, string_bytes, string_capacity};

    ghost view = { λ p. record { text = string_bytes p.text; longest = p.longest } };

    ghost invariant = { λ p. p.longest + 17 ≤ string_capacity p.text };
}

impl Path {
    pub(crate) fn new(alloc: Global, longest: u32) -> Result<Path, AllocError>
        ensures { IfOk result (λ p. p ≡ record { text = []; longest = longest }) }
    {
        Ok(Path {
            text: String::with_capacity(alloc, longest as usize + LONGEST_NAME)?,
            longest: longest as usize,
        })
    }

    /// Makes the path of a part's file, unless the folder's word is longer than the room, and
    /// answers whether it did.
    pub(crate) fn set(&mut self, dir: &str, part: Part) -> bool
        ensures room { result ≡ nat_le (length dir.now) self.old.longest }
        ensures path { self.new ≡ (if result then record self.old { text = path_of dir.now part.0 } else self.old) }
    {
        if dir.len() > self.longest {
            return false;
        }
        self.text.clear();
        append(&mut self.text, dir);
        append(&mut self.text, "/");
        append_name(&mut self.text, file_name(part));
        append(&mut self.text, extension(part));
        true
    }

    /// Opens the file at the path to be read. The library does not say which file a handle is of:
    /// here and in `create` it is tied to the path, and nowhere else.
    pub(crate) fn open<R: Files>(&self, files: &R) -> io::Result<R::File> {
        fs::open(files, self.text.as_str())
    }

    /// Makes the file at the path, empty, to be written.
    pub(crate) fn create<R: Files>(&self, files: &R) -> io::Result<R::File> {
        fs::create(files, self.text.as_str())
    }
}

// Appends a piece that the room suffices for.
fn append(text: &mut String, piece: &str)
    requires { string_len text.old + length piece.now ≤ string_capacity text.old }
    ensures bytes { string_bytes text.new ≡ string_bytes text.old ++ piece.now }
    ensures len { string_len text.new ≡ string_len text.old + length piece.now }
    ensures capacity { string_capacity text.old ≤ string_capacity text.new }
{
    let appended = text.push_str(piece).is_ok();
    prove!(appended);
}

fn append_name(text: &mut String, name: FileName)
    requires { string_len text.old + length (name_text name) ≤ string_capacity text.old }
    ensures bytes { string_bytes text.new ≡ string_bytes text.old ++ name_text name }
    ensures len { string_len text.new ≡ string_len text.old + length (name_text name) }
    ensures capacity { string_capacity text.old ≤ string_capacity text.new }
{
    append(text, name.stem);
    if let Some(number) = name.number {
        let mut buffer = Buffer::new();
        append(text, buffer.format(number));
    }
}
