//! The commands that read and write blocks.

ghost use Rattle.std.specs.Prelude.{◌≡◌, ◌+◌, ◌≤◌, ◌↔◌, nat_le, length, take, drop, IsSome, IfSome, IfOk};
ghost use Rattle.mz_lines.specs.declared.command.Command.TheVariants as command;
ghost use Rattle.mz_session.specs.Sessions.{IsKept};
ghost use Rattle.mz_session.specs.Serving.{Serves};

use crate::session::Session;
use mz_trace::Answer;
use mz_words::{BlockName, ShowCount, Shown};

// The bytes of an address.
const ADDRESS: u64 = 8;

impl Session {
    /// The size of the block, and 0 where the name has none.
    pub fn size(&self, name: BlockName) -> Answer
        requires { IsKept self.now }
        ensures { Serves self.now (command.Size name) result self.now }
    {
        match self.blocks.get(&name.get()) {
            Some(block) => Answer::Size { s: block.size() },
            None => Answer::Size { s: 0 },
        }
    }

    /// Makes all bytes of the block `byte`.
    pub fn fill(&mut self, name: BlockName, byte: u8) -> Answer
        requires { IsKept self.old }
        ensures { Serves self.old (command.Fill name byte) result self.new }
    {
        let name = name.get();
        if self.blocks.get(&name).is_none() {
            return Answer::NotHeld;
        }
        self.blocks.fill(&name, byte);
        Answer::Done
    }

    /// Shows `count` bytes of the block from `off` on.
    pub fn show(&self, name: BlockName, off: u64, count: ShowCount) -> Answer
        requires { IsKept self.now }
        ensures { Serves self.now (command.Show name off count) result self.now }
    {
        let Some(block) = self.blocks.get(&name.get()) else {
            return Answer::NotHeld;
        };
        match bytes_at(block.bytes(), off, count) {
            Some(shown) => Answer::Bytes { shown },
            None => Answer::OutOfRange,
        }
    }

    /// Writes the address of the block `target` into the block at `off`, least byte first.
    pub fn link(&mut self, name: BlockName, off: u64, target: BlockName) -> Answer
        requires { IsKept self.old }
        ensures { Serves self.old (command.Link name off target) result self.new }
    {
        let name = name.get();
        let Some(block) = self.blocks.get(&name) else {
            return Answer::NotHeld;
        };
        let Some(target) = self.blocks.get(&target.get()) else {
            return Answer::NotHeld;
        };
        if !has_room(block.size(), off, ADDRESS) {
            return Answer::OutOfRange;
        }
        let address = target.first().to_le_bytes();
        self.blocks.write(&name, off, &address);
        Answer::Done
    }
}

// Whether there are so many bytes from `off` on among `len`.
fn has_room(len: u64, off: u64, count: u64) -> bool
    ensures { result ≡ nat_le (off + count) len }
{
    count <= len && off <= len - count
}

// So many bytes from `off` on, where there are so many.
fn bytes_at(bytes: &[u8], off: u64, count: ShowCount) -> Option<Shown>
    ensures some { IfSome result (λ shown. shown ≡ take count (drop off bytes.now)) }
    ensures there { IsSome result ↔ (off + count ≤ length bytes.now) }
{
    let count = count.number() as usize;
    let len = bytes.len();
    if len < count || off > (len - count) as u64 {
        return None;
    }
    let off = off as usize;
    Shown::new(&bytes[off..off + count])
}
