// The commands of the line tool, by the first word of a line.
ghost use Rattle.std.specs.Prelude.{◌≡◌};
ghost use Rattle.line_tool.specs.Commands as meaning;

#[derive(Clone, Copy, Debug, PartialEq, Eq)]
pub enum Command {
    Seg,
    Word,
    Words,
    Reg,
    Alt,
    File,
    Table,
    Layout,
    Run,
    Load,
    Look,
    Sheet,
    Replay,
    Dump,
    Hash,
    Tally,
    Explain,
    Help,
}

pub fn command_of(word: &[u8]) -> Option<Command>
    ensures { result ≡ meaning.command_of word.now }
{
    if is(word, b"seg") {
        return Some(Command::Seg);
    }
    if is(word, b"word") {
        return Some(Command::Word);
    }
    if is(word, b"words") {
        return Some(Command::Words);
    }
    bytes_of(word)
}

// The commands that set bytes.
fn bytes_of(word: &[u8]) -> Option<Command>
    ensures { result ≡ meaning.bytes_of word.now }
{
    if is(word, b"reg") {
        return Some(Command::Reg);
    }
    if is(word, b"alt") {
        return Some(Command::Alt);
    }
    if is(word, b"file") {
        return Some(Command::File);
    }
    if is(word, b"table") {
        return Some(Command::Table);
    }
    operation_of(word)
}

// The commands over the operations.
fn operation_of(word: &[u8]) -> Option<Command>
    ensures { result ≡ meaning.operation_of word.now }
{
    if is(word, b"layout") {
        return Some(Command::Layout);
    }
    if is(word, b"run") {
        return Some(Command::Run);
    }
    if is(word, b"load") {
        return Some(Command::Load);
    }
    if is(word, b"look") {
        return Some(Command::Look);
    }
    if is(word, b"sheet") {
        return Some(Command::Sheet);
    }
    if is(word, b"replay") {
        return Some(Command::Replay);
    }
    question_of(word)
}

// The commands that only answer.
fn question_of(word: &[u8]) -> Option<Command>
    ensures { result ≡ meaning.question_of word.now }
{
    if is(word, b"dump") {
        return Some(Command::Dump);
    }
    if is(word, b"hash") {
        return Some(Command::Hash);
    }
    if is(word, b"tally") {
        return Some(Command::Tally);
    }
    if is(word, b"explain") {
        return Some(Command::Explain);
    }
    if is(word, b"help") {
        return Some(Command::Help);
    }
    None
}

pub fn is(word: &[u8], name: &[u8]) -> bool
    ensures { result ≡ meaning.is word.now name.now }
{
    word == name
}
