// An argument by itself: the word `spreads`, an option, or the name of a file.
ghost use Rattle.std.specs.Prelude.{◌≡◌};
ghost use Rattle.shell.specs.Words.{digit_of, same_bytes};

#[derive(Clone, Copy, Debug, PartialEq, Eq)]
pub enum Word {
    // the next file is one of spreads
    Spreads,
    // doubtful runs change the status
    Strict,
    // records as lines of fields apart by tabs
    Tsv,
    // records as JSON
    Json,
    // the next argument names the descriptor that the status goes to
    StatusFd,
    // an option that there is not
    Unknown,
    // the name of a file
    File,
}

impl Word {
    ghost use Rattle.shell.specs.Words.{word_of};

    // What this argument is.
    pub fn of(s: &[u8]) -> Word
        ensures { result ≡ word_of s.now }
    {
        if same(s, b"spreads") {
            Word::Spreads
        } else if same(s, b"--strict") {
            Word::Strict
        } else if same(s, b"--tsv") {
            Word::Tsv
        } else if same(s, b"--json") {
            Word::Json
        } else if same(s, b"--status-fd") {
            Word::StatusFd
        } else if s.starts_with(b"-") {
            Word::Unknown
        } else {
            Word::File
        }
    }
}

// The descriptor that this argument names: a digit from 3 to 9.
pub fn digit(s: &[u8]) -> Option<u8>
    ensures { result ≡ digit_of s.now }
{
    match s {
        [c @ b'3'..=b'9'] => Some(*c - b'0'),
        _ => None,
    }
}

// Whether two texts are the same, byte for byte.
fn same(s: &[u8], t: &[u8]) -> bool
    ensures { result ≡ same_bytes s.now t.now }
{
    s == t
}
