//! In which sections each line stands.
ghost use Rattle.std.specs.Prelude.{◌≡◌, bytes_eq};
ghost use Rattle.hx_config_parts.specs.Tables.{found, is_one_of};
ghost use Rattle.hx_config.specs.Places as table;
ghost use Rattle.hx_config.specs.Sections as section;

use crate::keywords::{FirstWord, TimeoutWord, Treatment};
use crate::sections::Kind;
use hx_config_parts::same;

impl Kind {
    /// Whether the section listens.
    pub fn has_front(self) -> bool
        ensures { result ≡ section.has_front self }
    {
        matches!(self, Kind::Frontend | Kind::Listen)
    }

    /// Whether the section has servers.
    pub fn has_back(self) -> bool
        ensures { result ≡ section.has_back self }
    {
        matches!(self, Kind::Backend | Kind::Listen)
    }

    fn is_defaults(self) -> bool
        ensures { result ≡ section.is_defaults self }
    {
        matches!(self, Kind::Defaults)
    }

    fn is_global(self) -> bool
        ensures { result ≡ section.is_global self }
    {
        matches!(self, Kind::Global)
    }

    fn is_proxy(self) -> bool
        ensures { result ≡ section.is_proxy self }
    {
        self.is_defaults() || self.has_front() || self.has_back()
    }
}

/// Whether the section has lines with this first word.
pub fn stands_in(first: FirstWord, kind: Kind) -> bool
    ensures { result ≡ table.stands_in first kind }
{
    match first {
        FirstWord::Global => true,
        FirstWord::Defaults => true,
        FirstWord::Frontend => true,
        FirstWord::Backend => true,
        FirstWord::Listen => true,
        FirstWord::Nbthread => kind.is_global(),
        FirstWord::ModeHttp => kind.is_proxy(),
        FirstWord::Bind => kind.has_front(),
        FirstWord::DefaultBackend => kind.is_defaults() || kind.has_front(),
        FirstWord::Balance => kind.is_defaults() || kind.has_back(),
        FirstWord::HttpReuse => kind.is_defaults() || kind.has_back(),
        FirstWord::Timeout => kind.is_proxy(),
        FirstWord::DefaultServer => kind.is_defaults() || kind.has_back(),
        FirstWord::ServerLine => kind.has_back(),
        FirstWord::OptionLine => kind.is_proxy(),
        FirstWord::PassedOver => kind.is_global() || kind.is_proxy(),
        FirstWord::PassedInGlobal => kind.is_global(),
        FirstWord::PassedInOthers => kind.is_proxy(),
    }
}

pub fn timeout_word(word: &[u8]) -> Option<TimeoutWord>
    ensures { result ≡ found table.timeout_words word.now }
{
    if same(word, b"connect") {
        Some(TimeoutWord::Connect)
    } else if same(word, b"server") {
        Some(TimeoutWord::Server)
    } else if same(word, b"client") {
        Some(TimeoutWord::Client)
    } else if same(word, b"http-keep-alive") {
        Some(TimeoutWord::KeepAlive)
    } else if same(word, b"http-request") {
        Some(TimeoutWord::Other)
    } else if same(word, b"queue") {
        Some(TimeoutWord::Other)
    } else if same(word, b"check") {
        Some(TimeoutWord::Other)
    } else {
        None
    }
}

/// What a timeout does in a section of this kind.
pub fn treatment_of(which: TimeoutWord, kind: Kind) -> Treatment
    ensures { result ≡ table.treatment_of which kind }
{
    match (which, kind) {
        (TimeoutWord::Other, _) => Treatment::Passed,
        (TimeoutWord::Connect, Kind::Frontend) => Treatment::Unknown,
        (TimeoutWord::Server, Kind::Frontend) => Treatment::Unknown,
        (TimeoutWord::Client, Kind::Backend) => Treatment::Unknown,
        (TimeoutWord::KeepAlive, Kind::Backend) => Treatment::Passed,
        _ => Treatment::Read,
    }
}

/// Whether the word behind `option` makes a line that is passed over.
pub fn is_option_line(word: &[u8]) -> bool
    ensures { result ≡ is_one_of table.option_lines word.now }
{
    same(word, b"httplog")
        || same(word, b"dontlognull")
        || same(word, b"redispatch")
        || same(word, b"http-keep-alive")
}
