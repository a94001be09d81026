ghost use Rattle.std.specs.Prelude.{◌≡◌, ◌+◌, ◌-◌, ◌*◌, ◌≤◌, length, Ok, IfOk, slice_get};
ghost use Rattle.cap_bytes.specs.Grammar.{u1, u2, u4, piece, remaining, finish, rest, aid, table};
ghost use Rattle.cap_bytes.specs.Spelling.{info_of, fault_at, cut};
ghost use Rattle.cap_bytes.specs.Taking.{Takes, IsAhead, same, bytes, nothing};
ghost use Rattle.std.specs.Iterator.{YieldsFirst, item_count};
ghost use Rattle.cap_bytes.specs.Table.{numbers};

use crate::cursor::Cursor;
use crate::fault::{FormFault, FormKind};
use crate::table::Table;
use crate::view::View;

impl<'a> Cursor<'a> {
    /// The items of a component with this tag and info.
    pub fn of(info: View<'a>, part: u8) -> Cursor<'a>
        requires { length info.bytes.now ≤ 65535 }
        ensures info { result.info ≡ info.entry }
        ensures part { result.part ≡ part }
        ensures first { result.at ≡ 0 }
    {
        Cursor { info, part, at: 0 }
    }

    /// The place of the n-th item from here, counted from 0, where each has this width in bytes.
    pub fn ahead(self, n: u32, width: u32) -> Cursor<'a>
        requires { self.at + n * width ≤ length self.info.bytes.now }
        ensures { IsAhead self.entry n width result }
    {
        Cursor {
            info: self.info,
            part: self.part,
            at: self.at + n * width,
        }
    }

    /// The next number of one byte.
    pub fn u1(&mut self) -> Result<u8, FormFault>
        ensures { Takes same u1 self.old result self.new }
    {
        let Some(n) = self.info.u1(self.at) else {
            return Err(self.cut());
        };
        self.at += 1;
        Ok(n)
    }

    /// The next big-endian number of two bytes.
    pub fn u2(&mut self) -> Result<u16, FormFault>
        ensures { Takes same u2 self.old result self.new }
    {
        let Some(n) = self.info.u2(self.at) else {
            return Err(self.cut());
        };
        self.at += 2;
        Ok(n)
    }

    /// The next big-endian number of four bytes.
    pub fn u4(&mut self) -> Result<u32, FormFault>
        ensures { Takes same u4 self.old result self.new }
    {
        let Some(n) = self.info.u4(self.at) else {
            return Err(self.cut());
        };
        self.at += 4;
        Ok(n)
    }

    /// How many bytes are left.
    pub fn remaining(&self) -> u32
        ensures { result ≡ length self.now.info.bytes.now - self.now.at }
    {
        self.info.bytes.len() as u32 - self.at
    }

    /// No byte is left.
    pub fn end(&self) -> Result<(), FormFault>
        ensures { Takes nothing finish self.now result self.now }
    {
        if self.remaining() == 0 {
            Ok(())
        } else {
            Err(self.fault(FormKind::Trailing))
        }
    }

    /// All bytes that are left.
    pub fn rest(&mut self) -> &'a [u8]
        ensures { Takes bytes rest self.old (Ok result) self.new }
    {
        let left = self.remaining();
        let from = self.at as usize;
        self.at += left;
        &self.info.bytes[from..]
    }

    /// The next so many bytes.
    pub fn piece(&mut self, len: u32) -> Result<&'a [u8], FormFault>
        ensures value { Takes bytes (piece len) self.old result self.new }
        ensures len { IfOk result (λ part. length part.now ≡ len) }
    {
        let Some(part) = self.info.part(self.at, len) else {
            return Err(self.cut());
        };
        self.at += len;
        Ok(part.bytes)
    }

    /// The next three bytes.
    #[tactic(auto, using(crate::proofs::Triple::all_three))]
    pub fn triple(&mut self) -> Result<[u8; 3], FormFault>
        ensures { Takes same (piece 3) self.old result self.new }
    {
        let bytes = self.piece(3)?;
        Ok([bytes[0], bytes[1], bytes[2]])
    }

    /// What is wrong with the next item, by its offset in the file.
    pub fn fault(&self, kind: FormKind) -> FormFault
        ensures { result ≡ fault_at (info_of self.now.part) self.now.at kind }
    {
        FormFault {
            part: self.part,
            at: 3 + self.at,
            kind,
        }
    }

    /// The bytes end too early.
    fn cut(&self) -> FormFault
        ensures { result ≡ cut (info_of self.now.part) self.now.info.bytes.now }
    {
        FormFault {
            part: self.part,
            at: 3 + self.info.bytes.len() as u32,
            kind: FormKind::Cut,
        }
    }

    /// An application identifier after the byte that counts its bytes.
    pub fn aid(&mut self) -> Result<&'a [u8], FormFault>
        ensures { Takes bytes aid self.old result self.new }
    {
        let place = *self;
        let len = self.u1()?;
        if len < 5 || len > 16 {
            return Err(place.fault(FormKind::BadValue));
        }
        self.piece(len as u32)
    }
}

impl<'a> Cursor<'a> {
    /// A table of so many numbers of two bytes.
    #[tactic(auto, using(crate::proofs::Loops::passing, crate::proofs::Loops::yielding), unfolding(crate::specs::Grammar::table))]
    pub fn table(&mut self, count: u16) -> Result<Table<'a>, FormFault>
        ensures value { Takes numbers (table count) self.old result self.new }
        ensures count { IfOk result (λ t. length (numbers t) ≡ count) }
    {
        let items = *self;
        'numbers: for _ in 0..count {
            self.u2()?;
        }
        Ok(Table { items, left: count })
    }
}

impl<'a> Table<'a> {
    /// How many numbers there are.
    #[tactic(auto, using(crate::proofs::Loops::yielding))]
    pub fn len(&self) -> u16
        ensures { result ≡ length (numbers self.now) }
    {
        self.left
    }

    /// The n-th number, counted from 0.
    #[tactic(auto, using(crate::proofs::Wide::numbered, crate::proofs::Wide::wide_number))]
    pub fn at(&self, n: u16) -> Option<u16>
        ensures { result ≡ slice_get (numbers self.now) n }
    {
        if n >= self.left {
            return None;
        }
        let mut there = self.items.ahead(n as u32, 2);
        match there.u2() {
            Ok(number) => Some(number),
            Err(_) => None,
        }
    }

    /// The numbers in order.
    pub fn iter(&self) -> Table<'a>
        ensures { numbers result ≡ numbers self.now }
    {
        *self
    }
}

impl<'a> Iterator for Table<'a> {
    type Item = u16;

    ghost next_gives = { YieldsFirst numbers };

    ghost remaining = { item_count numbers };

    #[tactic(auto, using(crate::proofs::Loops::yielding))]
    fn next(&mut self) -> Option<u16> {
        self.left = self.left.checked_sub(1)?;
        self.items.u2().ok()
    }
}
