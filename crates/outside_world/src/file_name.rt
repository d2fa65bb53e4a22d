ghost use Rattle.std.specs.Prelude.{◌≡◌, ◌≤◌, ◌++◌, length, map};
ghost use Rattle.std.specs.List.{list_all};
ghost use Rattle.std.specs.Char.{to_ascii_uppercase};
ghost use Rattle.outside_world.specs.FileNames.{dotted, file_name, has_ending, is_name_byte, is_stem, stem_in, HasExt};
ghost use Rattle.outside_world.specs.declared.file_name.Ext.TheVariants as of;
ghost use Rattle.std.specs.Str.{bytes_eq};

use lics_text::{ByteList, is_name};
use std::marker::Model;

/// Which kind of file a name is for.
#[derive(Clone, Copy)]
pub enum Ext {
    /// A worksheet, `.WK1`.
    Wk1,
    /// A printed report, `.PRN`.
    Prn,
    /// A text, `.TXT`.
    Txt,
}

impl Ext {
    // A dot and the three letters.
    fn dotted(self) -> [u8; 4]
        ensures { result ≡ dotted self }
    {
        match self {
            Ext::Wk1 => [b'.', b'W', b'K', b'1'],
            Ext::Prn => [b'.', b'P', b'R', b'N'],
            Ext::Txt => [b'.', b'T', b'X', b'T'],
        }
    }
}

/// The name of a file in the current folder: 1 to 8 bytes of A to Z, 0 to 9, `_` and `-`, and an extension,
/// as `LOG.TXT`. Letters are folded onto capitals.
#[derive(Drop)]
pub struct FileName {
    bytes: ByteList<12>,
    ext: Ext,
}

impl Model for FileName {
    ghost use Rattle.std.specs.Prelude.{ℕ, List, length, ◌≤◌};
    ghost use Rattle.outside_world.specs.FileNames.{HasExt};

    ghost Value = { List ℕ };

    ghost view = { λ n. n.bytes };

    ghost invariant = { λ n. HasExt n.bytes n.ext };
}

impl FileName {
    /// The name of a worksheet's file, as `with` reads it.
    pub fn of(bytes: &[u8]) -> Option<FileName>
        ensures { result ≡ file_name of.Wk1 bytes.now }
    {
        FileName::with(bytes, Ext::Wk1)
    }

    /// The name in these bytes, in letters of either case, with this extension or with none. None comes exactly
    /// where they are no such name.
    pub fn with(bytes: &[u8], ext: Ext) -> Option<FileName>
        ensures { result ≡ file_name ext bytes.now }
    {
        let stem = stem_in(ext, bytes);
        if is_stem(stem) {
            Some(FileName {
                bytes: whole_name(ext, stem),
                ext,
            })
        } else {
            None
        }
    }

    /// The extension.
    pub fn ext(&self) -> Ext
        ensures { HasExt self.now result }
    {
        self.ext
    }

    /// An equal name.
    pub fn copy(&self) -> FileName
        ensures { result ≡ self.now }
    {
        let mut bytes = ByteList::new();
        bytes.put_all(self.bytes.bytes());
        FileName {
            bytes,
            ext: self.ext,
        }
    }

    /// The whole name, in capitals, with its extension.
    pub fn bytes(&self) -> &[u8]
        ensures bytes { result.now ≡ self.now }
        ensures short { length result.now ≤ 12 }
    {
        self.bytes.bytes()
    }
}

// Whether a name ends with a point and an ending, in letters of either case.
fn has_ending(ext: Ext, bytes: &[u8]) -> bool
    ensures { result ≡ has_ending ext bytes.now }
{
    bytes.len() >= 4 && is_name(&ext.dotted(), &bytes[bytes.len() - 4..])
}

// What stands before the extension, where it is there.
fn stem_in(ext: Ext, bytes: &[u8]) -> &[u8]
    ensures { result.now ≡ stem_in ext bytes.now }
{
    if has_ending(ext, bytes) {
        &bytes[..bytes.len() - 4]
    } else {
        bytes
    }
}

// Whether a byte may stand in a file's name: a letter, a digit, `_` or `-`.
fn is_name_byte(byte: u8) -> bool
    ensures { result ≡ is_name_byte byte }
{
    byte.is_ascii_alphanumeric() || byte == b'_' || byte == b'-'
}

// Whether each byte may stand in a file's name.
fn are_name_bytes(bytes: &[u8]) -> bool
    ensures { result ≡ list_all is_name_byte bytes.now }
{
    bytes.iter().all(|byte| is_name_byte(*byte))
}

// Whether bytes can be a file's name without its ending: one to eight, each allowed in names.
fn is_stem(stem: &[u8]) -> bool
    ensures { result ≡ is_stem stem.now }
{
    1 <= stem.len() && stem.len() <= 8 && are_name_bytes(stem)
}

// The capitals of the stem, and the extension.
fn whole_name(ext: Ext, stem: &[u8]) -> ByteList<12>
    requires { length stem.now ≤ 8 }
    ensures { result ≡ map to_ascii_uppercase stem.now ++ dotted ext }
{
    let mut bytes = ByteList::new();
    for at in 0..stem.len() {
        bytes.put_all(&[stem[at].to_ascii_uppercase()]);
    }
    bytes.put_all(&ext.dotted());
    bytes
}

/// Two names are equal.
pub(crate) fn is_same(a: &FileName, b: &FileName) -> bool
    ensures { result ≡ bytes_eq a.now b.now }
{
    a.bytes() == b.bytes()
}
