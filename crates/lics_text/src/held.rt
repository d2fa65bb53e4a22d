// Where the bytes of a text are.
ghost use Rattle.std.specs.Prelude.{◌≡◌, ◌≤◌, IfOk, length};
ghost use Rattle.lics_text.specs.inner.Held.{held_bytes};

use crate::room::Room;
use crate::{MAX_LEN, Memory};
use std::alloc::Global;

/// The bytes of a text: up to 22 in the text itself, and more in a block of one of a few sizes. It takes 24 bytes.
#[derive(Drop)]
pub enum Held {
    In22(Room<22>),
    In39(Box<Room<39>>),
    In55(Box<Room<55>>),
    In87(Box<Room<87>>),
    In119(Box<Room<119>>),
    In183(Box<Room<183>>),
    In240(Box<Room<MAX_LEN>>),
}

// The bytes in a block of their own.
fn block<const N: usize>(alloc: Global, bytes: &[u8]) -> Result<Box<Room<N>>, Memory>
    requires fits { length bytes.now ≤ N }
    requires few { length bytes.now ≤ MAX_LEN }
    ensures { IfOk result (λ b. b.value ≡ bytes.now) }
{
    let mut block = Box::new(alloc, Room::new())?;
    block.put_all(bytes);
    Ok(block)
}

// The bytes without a block.
fn few(bytes: &[u8]) -> Held
    requires { length bytes.now ≤ 22 }
    ensures { held_bytes result ≡ bytes.now }
{
    let mut room = Room::new();
    room.put_all(bytes);
    Held::In22(room)
}

impl Held {
    /// The bytes, in the smallest block that has room for them.
    pub fn of(alloc: Global, bytes: &[u8]) -> Result<Held, Memory>
        requires { length bytes.now ≤ MAX_LEN }
        ensures { IfOk result (λ h. held_bytes h ≡ bytes.now) }
    {
        let size = bytes.len();
        if size <= 22 {
            Ok(few(bytes))
        } else if size <= 39 {
            Ok(Held::In39(block(alloc, bytes)?))
        } else if size <= 55 {
            Ok(Held::In55(block(alloc, bytes)?))
        } else if size <= 87 {
            Ok(Held::In87(block(alloc, bytes)?))
        } else if size <= 119 {
            Ok(Held::In119(block(alloc, bytes)?))
        } else if size <= 183 {
            Ok(Held::In183(block(alloc, bytes)?))
        } else {
            Ok(Held::In240(block(alloc, bytes)?))
        }
    }

    /// The bytes.
    #[inline(always)]
    pub fn bytes(&self) -> &[u8]
        ensures { result.now ≡ held_bytes self.now }
    {
        match self {
            Held::In22(room) => room.bytes(),
            Held::In39(room) => room.bytes(),
            Held::In55(room) => room.bytes(),
            Held::In87(room) => room.bytes(),
            Held::In119(room) => room.bytes(),
            Held::In183(room) => room.bytes(),
            Held::In240(room) => room.bytes(),
        }
    }
}
