//! The reserved words, each with its one spelling.
ghost use Rattle.std.specs.Prelude.{◌≡◌, ℕ, ◌<◌, length, find, bytes_eq};
ghost use Rattle.scripts_forms.specs.Words as spec;

/// A word of the forms.
#[derive(Clone, Copy, PartialEq, Eq)]
pub enum Key {
    Absolute,
    Ack,
    And,
    Atn,
    Call,
    Clear,
    Disconnect,
    From,
    If,
    Int,
    IntFly,
    Jump,
    Load,
    Mask,
    Memory,
    Move,
    Nop,
    Not,
    Reselect,
    Return,
    Select,
    Set,
    Store,
    To,
    Wait,
    When,
}

/// A reserved word. A phase is its code, 0 to 3, 6 or 7, a register byte its place, 0 to 0x5F. `Whole` is the name of
/// a register of four bytes without a digit, by the place of its byte 0.
#[derive(Clone, Copy, PartialEq, Eq)]
pub enum Word {
    Key(Key),
    Phase(u8),
    Register(u8),
    Whole(u8),
}

fn key_text(key: Key) -> &'static str
    ensures { result.now ≡ spec.key_text key }
{
    match key {
        Key::Absolute => "ABSOLUTE",
        Key::Ack => "ACK",
        Key::And => "AND",
        Key::Atn => "ATN",
        Key::Call => "CALL",
        Key::Clear => "CLEAR",
        Key::Disconnect => "DISCONNECT",
        Key::From => "FROM",
        Key::If => "IF",
        Key::Int => "INT",
        Key::IntFly => "INTFLY",
        Key::Jump => "JUMP",
        Key::Load => "LOAD",
        Key::Mask => "MASK",
        Key::Memory => "MEMORY",
        Key::Move => "MOVE",
        Key::Nop => "NOP",
        Key::Not => "NOT",
        Key::Reselect => "RESELECT",
        Key::Return => "RETURN",
        Key::Select => "SELECT",
        Key::Set => "SET",
        Key::Store => "STORE",
        Key::To => "TO",
        Key::Wait => "WAIT",
        Key::When => "WHEN",
    }
}

fn phase_text(code: u8) -> &'static str
    ensures { result.now ≡ spec.phase_text code }
{
    match code {
        0 => "DATA_OUT",
        1 => "DATA_IN",
        2 => "COMMAND",
        3 => "STATUS",
        6 => "MSG_OUT",
        7 => "MSG_IN",
        _ => "",
    }
}

fn register_text(place: u8) -> &'static str
    ensures { result.now ≡ spec.register_text place }
{
    match place {
        0x00 => "SCNTL0",
        0x01 => "SCNTL1",
        0x03 => "SCNTL3",
        0x05 => "SXFER",
        0x06 => "SDID",
        0x08 => "SFBR",
        0x0a => "SSID",
        0x0c => "DSTAT",
        0x10 => "DSA0",
        0x11 => "DSA1",
        0x12 => "DSA2",
        0x13 => "DSA3",
        0x14 => "ISTAT",
        0x1a => "CTEST2",
        0x1c => "TEMP0",
        0x1d => "TEMP1",
        0x1e => "TEMP2",
        0x1f => "TEMP3",
        _ => late_register_text(place),
    }
}

fn late_register_text(place: u8) -> &'static str
    ensures { result.now ≡ spec.late_register_text place }
{
    match place {
        0x24 => "DBC",
        0x27 => "DCMD",
        0x28 => "DNAD",
        0x2c => "DSP",
        0x30 => "DSPS",
        0x34 => "SCRATCHA0",
        0x35 => "SCRATCHA1",
        0x36 => "SCRATCHA2",
        0x37 => "SCRATCHA3",
        0x42 => "SIST0",
        0x43 => "SIST1",
        0x5c => "SCRATCHB0",
        0x5d => "SCRATCHB1",
        0x5e => "SCRATCHB2",
        0x5f => "SCRATCHB3",
        _ => "",
    }
}

fn whole_text(place: u8) -> &'static str
    ensures { result.now ≡ spec.whole_text place }
{
    match place {
        0x10 => "DSA",
        0x1c => "TEMP",
        0x34 => "SCRATCHA",
        0x5c => "SCRATCHB",
        _ => "",
    }
}

/// How a word is spelled: upper-case letters, digits and `_`. It is empty for a code or a place without a name.
/// Takes no memory.
pub fn spelling(word: Word) -> &'static str
    ensures { result.now ≡ spec.spelling word }
{
    match word {
        Word::Key(key) => key_text(key),
        Word::Phase(code) => phase_text(code),
        Word::Register(place) => register_text(place),
        Word::Whole(place) => whole_text(place),
    }
}

const WORDS: [Word; 69] = [
    Word::Key(Key::Absolute),
    Word::Key(Key::Ack),
    Word::Key(Key::And),
    Word::Key(Key::Atn),
    Word::Key(Key::Call),
    Word::Key(Key::Clear),
    Word::Key(Key::Disconnect),
    Word::Key(Key::From),
    Word::Key(Key::If),
    Word::Key(Key::Int),
    Word::Key(Key::IntFly),
    Word::Key(Key::Jump),
    Word::Key(Key::Load),
    Word::Key(Key::Mask),
    Word::Key(Key::Memory),
    Word::Key(Key::Move),
    Word::Key(Key::Nop),
    Word::Key(Key::Not),
    Word::Key(Key::Reselect),
    Word::Key(Key::Return),
    Word::Key(Key::Select),
    Word::Key(Key::Set),
    Word::Key(Key::Store),
    Word::Key(Key::To),
    Word::Key(Key::Wait),
    Word::Key(Key::When),
    Word::Phase(0),
    Word::Phase(1),
    Word::Phase(2),
    Word::Phase(3),
    Word::Phase(6),
    Word::Phase(7),
    Word::Register(0x00),
    Word::Register(0x01),
    Word::Register(0x03),
    Word::Register(0x05),
    Word::Register(0x06),
    Word::Register(0x08),
    Word::Register(0x0a),
    Word::Register(0x0c),
    Word::Register(0x10),
    Word::Register(0x11),
    Word::Register(0x12),
    Word::Register(0x13),
    Word::Register(0x14),
    Word::Register(0x1a),
    Word::Register(0x1c),
    Word::Register(0x1d),
    Word::Register(0x1e),
    Word::Register(0x1f),
    Word::Register(0x24),
    Word::Register(0x27),
    Word::Register(0x28),
    Word::Register(0x2c),
    Word::Register(0x30),
    Word::Register(0x34),
    Word::Register(0x35),
    Word::Register(0x36),
    Word::Register(0x37),
    Word::Register(0x42),
    Word::Register(0x43),
    Word::Register(0x5c),
    Word::Register(0x5d),
    Word::Register(0x5e),
    Word::Register(0x5f),
    Word::Whole(0x10),
    Word::Whole(0x1c),
    Word::Whole(0x34),
    Word::Whole(0x5c),
];

fn found(mut words: &[Word], run: &str) -> Option<Word>
    ensures { result ≡ spec.found words.entry.now run.now }
{
    while let [word, rest @ ..] = words {
        if spelling(*word) == run {
            return Some(*word);
        }
        words = rest;
    }
    None
}

/// The reserved word that is spelled so, in upper case; None where no word is. Takes no memory.
#[tactic(auto, unfolding(crate::specs::Words::word_of))]
pub fn word_of(run: &str) -> Option<Word>
    ensures { result ≡ spec.word_of run.now }
{
    found(&WORDS, run)
}
