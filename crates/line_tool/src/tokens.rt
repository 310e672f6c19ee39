// The tokens of a line: its longest parts without a blank.
ghost use Rattle.std.specs.Prelude.{◌≡◌, ◌≤◌, max, eqb, length};
ghost use Rattle.line_tool.specs.Tokens as meaning;

// The first byte of a token, and the byte after its last: an empty one where a line has no further token.
#[derive(Clone, Copy, Debug, PartialEq, Eq)]
pub struct Token {
    pub start: usize,
    pub end: usize,
}

impl Token {
    pub fn is_empty(self) -> bool
        ensures { result ≡ eqb self.start self.end }
    {
        self.start == self.end
    }
}

// The first token from a place on.
pub fn token_at(line: &[u8], from: usize) -> Token
    ensures { result ≡ meaning.token_at line.now from }
{
    let start = after_all(Kind::Blank, line, from);
    let end = after_all(Kind::Other, line, start);
    Token { start, end }
}

// The bytes of a token.
pub fn text(line: &[u8], token: Token) -> &[u8]
    ensures { result.now ≡ meaning.text_of line.now token }
{
    let start = token.start;
    let end = token.end.min(line.len());
    if end < start {
        return &line[0..0];
    }
    &line[start..end]
}

// What there is of the line where it ends too soon: the token, or all up to an empty one.
pub fn shown(line: &[u8], token: Token) -> Token
    ensures { result ≡ meaning.shown_of line.now token }
{
    if token.is_empty() {
        return Token {
            start: token_at(line, 0).start,
            end: token.start,
        };
    }
    token
}

// A blank line, or one that begins with #.
pub fn is_passed_over(line: &[u8]) -> bool
    ensures { result ≡ meaning.is_passed_over line.now }
{
    let start = after_all(Kind::Blank, line, 0);
    if line.len() <= start {
        return true;
    }
    line[start] == b'#'
}

// Where the line ends that begins at a place: at its line feed, or with the bytes.
pub fn line_end(bytes: &[u8], from: usize) -> usize
    ensures value { result ≡ meaning.line_end bytes.now from }
    ensures lower_bound { (from ≤ result) × (result ≤ max from (length bytes.now)) }
{
    after_all(Kind::InLine, bytes, from)
}

// A kind of bytes: blanks, others, and those of one line.
#[derive(Clone, Copy)]
enum Kind {
    Blank,
    Other,
    InLine,
}

// The place after the bytes of a kind that follow one another from a place on.
fn after_all(kind: Kind, bytes: &[u8], from: usize) -> usize
    ensures { result ≡ meaning.after_all (meaning.is_of kind) bytes.now from }
{
    for i in from..bytes.len() {
        if !is_of(kind, bytes[i]) {
            return i;
        }
    }
    from.max(bytes.len())
}

fn is_of(kind: Kind, b: u8) -> bool
    ensures { result ≡ meaning.is_of kind b }
{
    match kind {
        Kind::Blank => is_blank(b),
        Kind::Other => !is_blank(b),
        Kind::InLine => b != b'\n',
    }
}

fn is_blank(b: u8) -> bool
    ensures { result ≡ meaning.is_blank b }
{
    matches!(b, b' ' | b'\t' | b'\r')
}
