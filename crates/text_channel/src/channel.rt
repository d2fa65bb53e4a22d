ghost use Rattle.std.specs.Prelude.{◌≡◌, ◌≤◌, ◌+◌, length, option_copied, ℕ, None, Some, IfOk, IfSome, OnOk, OnErr};
ghost use Rattle.outside_world.specs.Shelf.{HasCause};
ghost use Rattle.text_channel.specs.Channels.{by_shelf, can_stand, can_write, left_to_read, moved, position_of, size_of};
ghost use Rattle.text_channel.specs.Channels.{stood, written, HasAttached, HasFinished, given, left_after, HasOpened, HasTaken};
ghost use Rattle.text_channel.specs.Channels as spec;
ghost use Rattle.text_channel.specs.Lines.{next_bytes, next_line};

use crate::attached::{Access, Attached};
use crate::lines::{next_bytes, next_line, shown_text};
use lics_text::{MAX_LEN, Memory, Text};
use outside_world::{ByteBuffer, FileName, Shelf, ShelfFault};
use std::alloc::Global;
use std::marker::Model;

// The most bytes of a file.
const LIMIT: usize = 67_108_864;

/// Why a call of a channel gives no answer.
#[derive(Clone, Copy)]
pub enum ChannelFault {
    /// The shelf failed, and its count of faults rose.
    Failed,
    Memory,
}

/// A text file of a macro, or none: its name, what may be done, its bytes and a position of at most their number.
#[derive(Drop)]
pub struct Channel {
    attached: Option<Attached>,
}

impl Model for Channel {
    ghost use Rattle.std.specs.Prelude.{Option};
    ghost use Rattle.text_channel.specs.declared.attached.Attached.{Attached};
    ghost use Rattle.text_channel.specs.inner.Attached.{IsWithin};

    ghost Value = { Option Attached };

    ghost view = { λ c. c.attached };

    ghost invariant = { λ c. IsWithin c.attached };
}

impl Channel {
    /// A channel with nothing attached.
    pub fn new() -> Channel
        ensures { result ≡ None }
    {
        Channel { attached: None }
    }

    /// How many bytes the file has, and none exactly where nothing is attached.
    pub fn size(&self) -> Option<u32>
        ensures size { result ≡ size_of self.now }
        ensures most { IfSome result (λ size. size ≤ spec.LIMIT) }
    {
        match &self.attached {
            Some(file) => Some(file.bytes.len() as u32),
            None => None,
        }
    }

    /// The position, and none exactly where nothing is attached.
    pub fn position(&self) -> Option<u32>
        ensures position { result ≡ position_of self.now }
        ensures most { IfSome result (λ place. place ≤ spec.LIMIT) }
    {
        match &self.attached {
            Some(file) => Some(file.at as u32),
            None => None,
        }
    }

    /// Sets the position. It answers false, and changes nothing, exactly where nothing is attached and past the length.
    pub fn set_position(&mut self, at: u32) -> bool
        ensures answer { result ≡ can_stand at self.old }
        ensures channel { self.new ≡ stood at self.old }
    {
        match &mut self.attached {
            Some(file) => {
                let place = at as usize;
                if place <= file.bytes.len() {
                    file.at = place;
                    true
                } else {
                    false
                }
            }
            None => false,
        }
    }

    // The bytes that can be read; none exactly where nothing is attached, the access is Write, or the position is the
    // length.
    fn left_to_read(&self) -> Option<&[u8]>
        ensures { option_copied result ≡ left_to_read self.now }
    {
        match &self.attached {
            Some(file) => {
                if file.access == Access::Write || file.at >= file.bytes.len() {
                    return None;
                }
                Some(file.bytes.bytes().split_at(file.at).1)
            }
            None => None,
        }
    }

    // The position moves behind so many bytes more.
    fn pass(&mut self, count: usize)
        requires { IfSome self.old (λ file. file.at + count ≤ length file.bytes) }
        ensures { self.new ≡ moved (Some count) self.old }
    {
        if let Some(file) = &mut self.attached {
            file.at += count;
        }
    }

    /// The next bytes as a text, fewer at the end; bytes below 32 become blanks. The position moves behind them. None
    /// comes, and nothing moves, exactly where nothing is attached, the access is Write, or the position is the length.
    /// After want of memory the channel is as it was.
    pub fn read(&mut self, alloc: Global, count: u8) -> Result<Option<Text>, Memory>
        requires { count ≤ MAX_LEN }
        ensures text { IfOk result (λ text. text ≡ given (next_bytes count) self.old) }
        ensures channel { OnOk result (self.new ≡ left_after (next_bytes count) self.old) }
        ensures kept { OnErr result (self.new ≡ self.old) }
    {
        let Some(left) = self.left_to_read() else {
            return Ok(None);
        };
        let next = next_bytes(usize::from(count), left);
        let text = shown_text(alloc, left.split_at(next.text).0)?;
        self.pass(next.passed);
        Ok(Some(text))
    }

    /// The bytes up to CR LF, LF alone or the end as a text; bytes below 32 become blanks. The position moves behind
    /// that ending; where more than 240 bytes stand before it, the text is the first 240 and the position moves behind
    /// them. None comes, and nothing moves, exactly where nothing is attached, the access is Write, or the position is
    /// the length. After want of memory the channel is as it was.
    pub fn read_line(&mut self, alloc: Global) -> Result<Option<Text>, Memory>
        ensures text { IfOk result (λ text. text ≡ given next_line self.old) }
        ensures channel { OnOk result (self.new ≡ left_after next_line self.old) }
        ensures kept { OnErr result (self.new ≡ self.old) }
    {
        let Some(left) = self.left_to_read() else {
            return Ok(None);
        };
        let next = next_line(left);
        let text = shown_text(alloc, left.split_at(next.text).0)?;
        self.pass(next.passed);
        Ok(Some(text))
    }

    /// Puts bytes at the position, over and past the old ones, and moves it behind them. It answers false, and changes
    /// nothing, exactly where nothing is attached, the access is Read, or the length would pass 67,108,864. After want
    /// of memory the channel is as it was.
    pub fn write(&mut self, bytes: &[u8]) -> Result<bool, Memory>
        ensures answer { IfOk result (λ done. done ≡ can_write bytes.now self.old) }
        ensures channel { OnOk result (self.new ≡ written bytes.now self.old) }
        ensures kept { OnErr result (self.new ≡ self.old) }
    {
        match &mut self.attached {
            Some(file) => {
                if file.access == Access::Read || bytes.len() > LIMIT - file.at {
                    return Ok(false);
                }
                file.bytes.put_at(file.at, bytes)?;
                file.at += bytes.len();
                Ok(true)
            }
            None => Ok(false),
        }
    }

    /// Puts the file on the shelf, unless it was only read, and lets it go. It answers false exactly where nothing is
    /// attached. Where the put failed or found no memory, the file stays attached.
    pub fn finish<S: Shelf>(&mut self, shelf: &mut S) -> Result<bool, ChannelFault>
        ensures empty { OnOk result (self.new ≡ None) }
        ensures finished { HasFinished self.old (S.holds shelf.old) (S.holds shelf.new) self.new result }
        ensures cause { HasCause (S.faults shelf.old) (S.faults shelf.new) (by_shelf result) }
    {
        let Some(file) = &self.attached else {
            return Ok(false);
        };
        if file.access != Access::Read {
            match shelf.put(&file.name, &file.bytes) {
                Ok(()) => {}
                Err(ShelfFault::Failed) => return Err(ChannelFault::Failed),
                Err(ShelfFault::Memory) => return Err(ChannelFault::Memory),
            }
        }
        self.attached = None;
        Ok(true)
    }

    /// Finishes what is attached, and then attaches a file: for Write with no bytes, for Read and Modify with those on
    /// the shelf, at position 0. It answers false, with nothing attached, exactly where there is no such file or it has
    /// more than 67,108,864 bytes. Where the finishing failed, the earlier file stays attached.
    pub fn attach<S: Shelf>(
        &mut self,
        alloc: Global,
        name: FileName,
        access: Access,
        shelf: &mut S,
    ) -> Result<bool, ChannelFault>
        ensures attached { HasAttached name access self.old (S.holds shelf.old) (S.holds shelf.new) self.new result }
        ensures cause { HasCause (S.faults shelf.old) (S.faults shelf.new) (by_shelf result) }
    {
        match self.finish(shelf) {
            Ok(_) => self.take(alloc, name, access, shelf),
            Err(fault) => Err(fault),
        }
    }

    // Attaches a file where nothing is attached: no bytes for Write, and else the shelf's.
    fn take<S: Shelf>(
        &mut self,
        alloc: Global,
        name: FileName,
        access: Access,
        shelf: &mut S,
    ) -> Result<bool, ChannelFault>
        requires { self.old ≡ None }
        ensures taken { HasTaken name access (S.holds shelf.old) (S.holds shelf.new) self.new result }
        ensures cause { HasCause (S.faults shelf.old) (S.faults shelf.new) (by_shelf result) }
    {
        match access {
            Access::Write => {
                self.attached = Some(Attached {
                    name,
                    access,
                    bytes: ByteBuffer::new(alloc),
                    at: 0,
                });
                Ok(true)
            }
            Access::Read | Access::Modify => self.open(name, access, shelf),
        }
    }

    // Attaches the shelf's file.
    fn open<S: Shelf>(
        &mut self,
        name: FileName,
        access: Access,
        shelf: &mut S,
    ) -> Result<bool, ChannelFault>
        requires { self.old ≡ None }
        ensures opened { HasOpened name access (S.holds shelf.old) (S.holds shelf.new) self.new result }
        ensures cause { HasCause (S.faults shelf.old) (S.faults shelf.new) (by_shelf result) }
    {
        let got = match shelf.get(&name) {
            Ok(got) => got,
            Err(ShelfFault::Failed) => return Err(ChannelFault::Failed),
            Err(ShelfFault::Memory) => return Err(ChannelFault::Memory),
        };
        let Some(bytes) = got else {
            return Ok(false);
        };
        if bytes.len() > LIMIT {
            return Ok(false);
        }
        self.attached = Some(Attached {
            name,
            access,
            bytes,
            at: 0,
        });
        Ok(true)
    }
}
