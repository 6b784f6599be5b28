//! The words that lines begin with, and the words that follow some of them.
ghost use Rattle.std.specs.Prelude.{◌≡◌, bytes_eq};
ghost use Rattle.hx_config.specs.Keywords.{section_words, setting_words};
ghost use Rattle.hx_config_parts.specs.Tables.{found, is_one_of};
ghost use Rattle.hx_config.specs.Keywords as tables;

use hx_config_parts::same;

/// The first word of a line.
#[derive(Clone, Copy, PartialEq, Eq, Debug)]
pub enum FirstWord {
    Global,
    Defaults,
    Frontend,
    Backend,
    Listen,
    Nbthread,
    ModeHttp,
    Bind,
    DefaultBackend,
    Balance,
    HttpReuse,
    Timeout,
    DefaultServer,
    ServerLine,
    OptionLine,
    /// A line that is passed over in each section.
    PassedOver,
    /// A line that is passed over in `global` and stands nowhere else.
    PassedInGlobal,
    /// A line that is passed over in the other sections and does not stand in `global`.
    PassedInOthers,
}

fn section_word(word: &[u8]) -> Option<FirstWord>
    ensures { result ≡ found section_words word.now }
{
    if same(word, b"global") {
        Some(FirstWord::Global)
    } else if same(word, b"defaults") {
        Some(FirstWord::Defaults)
    } else if same(word, b"frontend") {
        Some(FirstWord::Frontend)
    } else if same(word, b"backend") {
        Some(FirstWord::Backend)
    } else if same(word, b"listen") {
        Some(FirstWord::Listen)
    } else {
        None
    }
}

fn setting_word(word: &[u8]) -> Option<FirstWord>
    ensures { result ≡ found setting_words word.now }
{
    if same(word, b"nbthread") {
        Some(FirstWord::Nbthread)
    } else if same(word, b"mode") {
        Some(FirstWord::ModeHttp)
    } else if same(word, b"bind") {
        Some(FirstWord::Bind)
    } else if same(word, b"default_backend") {
        Some(FirstWord::DefaultBackend)
    } else if same(word, b"balance") {
        Some(FirstWord::Balance)
    } else if same(word, b"http-reuse") {
        Some(FirstWord::HttpReuse)
    } else if same(word, b"timeout") {
        Some(FirstWord::Timeout)
    } else if same(word, b"default-server") {
        Some(FirstWord::DefaultServer)
    } else if same(word, b"server") {
        Some(FirstWord::ServerLine)
    } else if same(word, b"option") {
        Some(FirstWord::OptionLine)
    } else {
        None
    }
}

// Whether the word begins a line that is passed over in `global` alone.
fn is_global_word(word: &[u8]) -> bool
    ensures { result ≡ is_one_of tables.global_words word.now }
{
    same(word, b"chroot")
        || same(word, b"stats")
        || same(word, b"user")
        || same(word, b"group")
        || same(word, b"daemon")
        || same(word, b"pidfile")
        || same(word, b"ca-base")
        || same(word, b"crt-base")
        || same(word, b"ssl-default-bind-ciphers")
        || same(word, b"ssl-default-bind-ciphersuites")
        || same(word, b"ssl-default-bind-options")
}

fn passed_word(word: &[u8]) -> Option<FirstWord>
    ensures { result ≡ tables.passed_word word.now }
{
    if same(word, b"log") || same(word, b"maxconn") {
        Some(FirstWord::PassedOver)
    } else if same(word, b"errorfile") || same(word, b"retries") {
        Some(FirstWord::PassedInOthers)
    } else if is_global_word(word) {
        Some(FirstWord::PassedInGlobal)
    } else {
        None
    }
}

pub fn first_word(word: &[u8]) -> Option<FirstWord>
    ensures { result ≡ tables.first_word word.now }
{
    if let Some(first) = section_word(word) {
        return Some(first);
    }
    if let Some(first) = setting_word(word) {
        return Some(first);
    }
    passed_word(word)
}

/// The word behind `timeout`.
#[derive(Clone, Copy, PartialEq, Eq, Debug)]
pub enum TimeoutWord {
    Connect,
    Server,
    Client,
    KeepAlive,
    /// One that is passed over in each section.
    Other,
}

/// What a timeout does in a section.
#[derive(Clone, Copy, PartialEq, Eq, Debug)]
pub enum Treatment {
    Read,
    Passed,
    Unknown,
}
