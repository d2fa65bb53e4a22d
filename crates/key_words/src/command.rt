// The commands of macros.
ghost use Rattle.std.specs.Char.{to_ascii_uppercase};
ghost use Rattle.std.specs.Prelude.{◌≡◌, map};
ghost use Rattle.key_words.specs.Commands as spec;

use lics_text::name_in;

/// A command of macros, by its name (Release 2 manual), in the manual's order with the words for text files last.
#[derive(Clone, Copy)]
pub enum Command {
    Branch,
    Dispatch,
    Define,
    Return,
    Restart,
    Quit,
    If,
    For,
    ForBreak,
    Let,
    Put,
    Blank,
    Contents,
    OnError,
    Get,
    GetLabel,
    GetNumber,
    Look,
    MenuBranch,
    MenuCall,
    Wait,
    /// `?`, which hands the keys on up to Enter.
    Interact,
    Beep,
    Indicate,
    PanelOn,
    PanelOff,
    WindowsOn,
    WindowsOff,
    BreakOn,
    BreakOff,
    Recalc,
    RecalcCol,
    Open,
    Close,
    Read,
    ReadLn,
    Write,
    WriteLn,
    FileSize,
    GetPos,
    SetPos,
}

const COMMANDS: [(&[u8], Command); 41] = [
    (b"BRANCH", Command::Branch),
    (b"DISPATCH", Command::Dispatch),
    (b"DEFINE", Command::Define),
    (b"RETURN", Command::Return),
    (b"RESTART", Command::Restart),
    (b"QUIT", Command::Quit),
    (b"IF", Command::If),
    (b"FOR", Command::For),
    (b"FORBREAK", Command::ForBreak),
    (b"LET", Command::Let),
    (b"PUT", Command::Put),
    (b"BLANK", Command::Blank),
    (b"CONTENTS", Command::Contents),
    (b"ONERROR", Command::OnError),
    (b"GET", Command::Get),
    (b"GETLABEL", Command::GetLabel),
    (b"GETNUMBER", Command::GetNumber),
    (b"LOOK", Command::Look),
    (b"MENUBRANCH", Command::MenuBranch),
    (b"MENUCALL", Command::MenuCall),
    (b"WAIT", Command::Wait),
    (b"?", Command::Interact),
    (b"BEEP", Command::Beep),
    (b"INDICATE", Command::Indicate),
    (b"PANELON", Command::PanelOn),
    (b"PANELOFF", Command::PanelOff),
    (b"WINDOWSON", Command::WindowsOn),
    (b"WINDOWSOFF", Command::WindowsOff),
    (b"BREAKON", Command::BreakOn),
    (b"BREAKOFF", Command::BreakOff),
    (b"RECALC", Command::Recalc),
    (b"RECALCCOL", Command::RecalcCol),
    (b"OPEN", Command::Open),
    (b"CLOSE", Command::Close),
    (b"READ", Command::Read),
    (b"READLN", Command::ReadLn),
    (b"WRITE", Command::Write),
    (b"WRITELN", Command::WriteLn),
    (b"FILESIZE", Command::FileSize),
    (b"GETPOS", Command::GetPos),
    (b"SETPOS", Command::SetPos),
];

/// The command of a name, in letters of either case.
pub fn command_named(name: &[u8]) -> Option<Command>
    ensures { result ≡ spec.command_named (map to_ascii_uppercase name.now) }
{
    name_in(&COMMANDS, name)
}

/// What a word of a slash, X and a letter stands for.
#[derive(Clone, Copy)]
pub enum SlashWord {
    /// A command that takes no argument.
    Alone(Command),
    /// A command with one argument, which a tilde ends.
    WithOne(Command),
    /// A command with two arguments, each of which a tilde ends.
    WithTwo(Command),
    /// A call of a place, which a tilde ends.
    Call,
}

/// The word of a letter, in either case.
pub fn slash_word(letter: u8) -> Option<SlashWord>
    ensures { result ≡ spec.slash_word (to_ascii_uppercase letter) }
{
    match letter.to_ascii_uppercase() {
        b'I' => Some(SlashWord::WithOne(Command::If)),
        b'G' => Some(SlashWord::WithOne(Command::Branch)),
        b'C' => Some(SlashWord::Call),
        b'R' => Some(SlashWord::Alone(Command::Return)),
        b'Q' => Some(SlashWord::Alone(Command::Quit)),
        b'M' => Some(SlashWord::WithOne(Command::MenuBranch)),
        b'L' => Some(SlashWord::WithTwo(Command::GetLabel)),
        b'N' => Some(SlashWord::WithTwo(Command::GetNumber)),
        _ => None,
    }
}
