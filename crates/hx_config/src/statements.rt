//! What each line does.
ghost use Rattle.std.specs.Prelude.{◌≡◌, Ok, [], bytes_eq};
ghost use Rattle.std.specs.List.{list_any};
ghost use Rattle.hx_config_parts.specs.Faults.{Gives};
ghost use Rattle.hx_config_parts.specs.Tables.{found};
ghost use Rattle.hx_config_parts.specs.Lexical.{words_of};
ghost use Rattle.hx_config.specs.Sections as section;
ghost use Rattle.hx_config.specs.Statements as means;
ghost use Rattle.hx_config.specs.declared.keywords.Treatment.TheVariants.{Read};

use crate::keywords::{FirstWord, TimeoutWord, Treatment, first_word};
use crate::opening::{copy_name, empty_section, first_values, usual_values};
use crate::options::{Chosen, choose};
use crate::parts::Server;
use crate::places::{is_option_line, stands_in, timeout_word, treatment_of};
use crate::reading::Reading;
use crate::sections::{Kind, Section, Values};
use hx_base::{Items, Millis, Mode, ServerNo};
use hx_config_parts::{
    Refusal, Rule, Words, address_to_bind, address_to_connect, name, number, same, time,
};
use std::alloc::Global;

fn unless(broken: bool, rule: Rule) -> Result<(), Refusal>
    ensures { Gives (λ _. tt) result (means.unless broken rule) }
{
    if broken {
        Err(Refusal::Fault(rule))
    } else {
        Ok(())
    }
}

fn optional_name(words: &mut Words<'_>) -> Result<(), Refusal>
    ensures { Gives (λ _. tt) result (means.optional_name words.old) }
{
    if words.is_empty() {
        return Ok(());
    }
    let word = words.word()?;
    name(word)?;
    words.end()
}

fn only_word(text: &[u8], words: &mut Words<'_>) -> Result<(), Refusal>
    ensures { Gives (λ _. tt) result (means.only_word text.now words.old) }
{
    let word = words.word()?;
    unless(!same(word, text), Rule::UnknownWord)?;
    words.end()
}

fn mode_word(word: &[u8]) -> Result<Mode, Refusal>
    ensures { Gives (λ m. m) result (means.known (found means.mode_words word.now)) }
{
    if same(word, b"never") {
        Ok(Mode::Never)
    } else if same(word, b"safe") {
        Ok(Mode::Safe)
    } else if same(word, b"aggressive") {
        Ok(Mode::Aggressive)
    } else if same(word, b"always") {
        Ok(Mode::Always)
    } else {
        Err(Refusal::Fault(Rule::UnknownWord))
    }
}

fn set_time(values: &mut Values, which: TimeoutWord, t: Millis)
    ensures { values.new ≡ means.with_time which t values.old }
{
    match which {
        TimeoutWord::Connect => values.connect = Some(t),
        TimeoutWord::Server => values.server = Some(t),
        TimeoutWord::Client => values.client = Some(t),
        TimeoutWord::KeepAlive => values.keep_alive = Some(t),
        TimeoutWord::Other => {}
    }
}

fn is_server_named(servers: &[Server], name: &[u8]) -> bool
    ensures { result ≡ section.has_server_named name.now servers.now }
{
    servers.iter().any(|s| same(s.name.as_slice(), name))
}

impl Reading {
    fn pass_over(&mut self, line: u32) -> Result<(), Refusal>
        ensures { Gives (λ _. self.new) result (Ok (section.passing line self.old)) }
    {
        self.passed_over.push(line)?;
        Ok(())
    }

    fn pass_over_if(&mut self, passed: bool, line: u32) -> Result<(), Refusal>
        ensures { Gives (λ _. self.new) result (Ok (means.passing_if passed line self.old)) }
    {
        if passed { self.pass_over(line) } else { Ok(()) }
    }

    fn open_unnamed(&mut self, alloc: Global, kind: Kind, line: u32) -> Result<(), Refusal>
        ensures { Gives (λ _. self.new) result
            (Ok (means.opened (section.empty_section kind line [] section.usual_values) self.old)) }
    {
        self.close(alloc)?;
        let name = Items::from_vec(Vec::new(alloc));
        self.current = empty_section(alloc, kind, line, name, usual_values());
        Ok(())
    }

    fn global_line(
        &mut self,
        alloc: Global,
        line: u32,
        words: &mut Words<'_>,
    ) -> Result<(), Refusal>
        ensures { Gives (λ _. self.new) result (means.global_line line self.old words.old) }
    {
        words.end()?;
        self.open_unnamed(alloc, Kind::Global, line)
    }

    fn defaults_line(
        &mut self,
        alloc: Global,
        line: u32,
        words: &mut Words<'_>,
    ) -> Result<(), Refusal>
        ensures { Gives (λ _. self.new) result (means.defaults_line line self.old words.old) }
    {
        optional_name(words)?;
        self.open_unnamed(alloc, Kind::Defaults, line)
    }

    fn open_named(
        &mut self,
        alloc: Global,
        kind: Kind,
        line: u32,
        name: &[u8],
    ) -> Result<(), Refusal>
        ensures { Gives (λ _. self.new) result
            (Ok (section.begun_named kind line name.now self.old)) }
    {
        let values = first_values(alloc, kind, name, &self.defaults)?;
        let name = copy_name(alloc, name)?;
        self.current = empty_section(alloc, kind, line, name, values);
        Ok(())
    }

    fn named_line(
        &mut self,
        alloc: Global,
        kind: Kind,
        line: u32,
        words: &mut Words<'_>,
    ) -> Result<(), Refusal>
        ensures { Gives (λ _. self.new) result (means.named_line kind line self.old words.old) }
    {
        let word = words.word()?;
        let name = name(word)?;
        self.close(alloc)?;
        unless(self.is_double(kind, name), Rule::DoubleName)?;
        words.end()?;
        unless(self.is_full(kind), Rule::TooMany)?;
        self.open_named(alloc, kind, line, name)
    }

    fn nbthread_line(&mut self, words: &mut Words<'_>) -> Result<(), Refusal>
        ensures { Gives (λ _. self.new) result (means.nbthread_line self.old words.old) }
    {
        let word = words.word()?;
        let threads = number(Rule::BadNumber, word, 1, 16)?;
        words.end()?;
        self.threads = threads as u8;
        Ok(())
    }

    fn bind_line(&mut self, words: &mut Words<'_>) -> Result<(), Refusal>
        ensures { Gives (λ _. self.new) result (means.bind_line self.old words.old) }
    {
        let word = words.word()?;
        let address = address_to_bind(word)?;
        words.end()?;
        unless(16 <= self.current.binds.len(), Rule::TooMany)?;
        self.current.binds.push(address)?;
        Ok(())
    }

    fn default_backend_line(&mut self, alloc: Global, words: &mut Words<'_>) -> Result<(), Refusal>
        ensures { Gives (λ _. self.new) result (means.default_backend_line self.old words.old) }
    {
        let word = words.word()?;
        let name = name(word)?;
        words.end()?;
        self.current.values.back = Some(copy_name(alloc, name)?);
        Ok(())
    }

    fn http_reuse_line(&mut self, words: &mut Words<'_>) -> Result<(), Refusal>
        ensures { Gives (λ _. self.new) result (means.http_reuse_line self.old words.old) }
    {
        let word = words.word()?;
        let mode = mode_word(word)?;
        words.end()?;
        self.current.values.rules.mode = mode;
        Ok(())
    }

    fn read_timeout(&mut self, which: TimeoutWord, words: &mut Words<'_>) -> Result<(), Refusal>
        ensures { Gives (λ _. self.new) result (means.treated Read which 0 self.old words.old) }
    {
        let word = words.word()?;
        let t = time(word)?;
        words.end()?;
        set_time(&mut self.current.values, which, t);
        Ok(())
    }

    fn timeout_line(&mut self, line: u32, words: &mut Words<'_>) -> Result<(), Refusal>
        ensures { Gives (λ _. self.new) result (means.timeout_line line self.old words.old) }
    {
        let word = words.word()?;
        let Some(which) = timeout_word(word) else {
            return Err(Refusal::Fault(Rule::UnknownWord));
        };
        match treatment_of(which, self.current.kind) {
            Treatment::Unknown => Err(Refusal::Fault(Rule::UnknownWord)),
            Treatment::Passed => self.pass_over(line),
            Treatment::Read => self.read_timeout(which, words),
        }
    }

    fn usual_choice(&self) -> Chosen
        ensures { result ≡ means.usual_choice self.now }
    {
        Chosen {
            rules: self.current.values.rules,
            passed: false,
        }
    }

    fn default_server_line(&mut self, line: u32, words: &mut Words<'_>) -> Result<(), Refusal>
        ensures { Gives (λ _. self.new) result (means.default_server_line line self.old words.old) }
    {
        let chosen = choose(self.usual_choice(), words)?;
        self.current.values.rules = chosen.rules;
        self.pass_over_if(chosen.passed, line)
    }

    fn server_line(
        &mut self,
        alloc: Global,
        line: u32,
        words: &mut Words<'_>,
    ) -> Result<(), Refusal>
        ensures { Gives (λ _. self.new) result (means.server_line line self.old words.old) }
    {
        let word = words.word()?;
        let name = name(word)?;
        unless(
            is_server_named(self.current.servers.as_slice(), name),
            Rule::DoubleName,
        )?;
        let word = words.word()?;
        let address = address_to_connect(word)?;
        let chosen = choose(self.usual_choice(), words)?;
        unless(32 <= self.servers, Rule::TooMany)?;
        let server = Server {
            name: copy_name(alloc, name)?,
            no: ServerNo(self.servers),
            address,
            rules: chosen.rules,
        };
        self.current.servers.push(server)?;
        self.servers += 1;
        self.pass_over_if(chosen.passed, line)
    }

    fn option_line(&mut self, line: u32, words: &mut Words<'_>) -> Result<(), Refusal>
        ensures { Gives (λ _. self.new) result (means.option_line line self.old words.old) }
    {
        let word = words.word()?;
        unless(!is_option_line(word), Rule::UnknownWord)?;
        self.pass_over(line)
    }

    #[tactic(auto, unfolding(crate::specs::Statements::said))]
    fn said(
        &mut self,
        alloc: Global,
        first: FirstWord,
        line: u32,
        words: &mut Words<'_>,
    ) -> Result<(), Refusal>
        ensures { Gives (λ _. self.new) result (means.said first line self.old words.old) }
    {
        match first {
            FirstWord::Global => self.global_line(alloc, line, words),
            FirstWord::Defaults => self.defaults_line(alloc, line, words),
            FirstWord::Frontend => self.named_line(alloc, Kind::Frontend, line, words),
            FirstWord::Backend => self.named_line(alloc, Kind::Backend, line, words),
            FirstWord::Listen => self.named_line(alloc, Kind::Listen, line, words),
            FirstWord::Nbthread => self.nbthread_line(words),
            FirstWord::ModeHttp => only_word(b"http", words),
            FirstWord::Bind => self.bind_line(words),
            FirstWord::DefaultBackend => self.default_backend_line(alloc, words),
            FirstWord::Balance => only_word(b"roundrobin", words),
            FirstWord::HttpReuse => self.http_reuse_line(words),
            FirstWord::Timeout => self.timeout_line(line, words),
            FirstWord::DefaultServer => self.default_server_line(line, words),
            FirstWord::ServerLine => self.server_line(alloc, line, words),
            FirstWord::OptionLine => self.option_line(line, words),
            FirstWord::PassedOver => self.pass_over(line),
            FirstWord::PassedInGlobal => self.pass_over(line),
            FirstWord::PassedInOthers => self.pass_over(line),
        }
    }

    /// Reads a line.
    #[tactic(auto, unfolding(crate::specs::Statements::line_read))]
    pub fn line(&mut self, alloc: Global, line: u32, text: &[u8]) -> Result<(), Refusal>
        ensures { Gives (λ _. self.new) result (means.line_read line self.old (words_of text.now)) }
    {
        let mut words = Words::of(text);
        if words.is_empty() {
            return Ok(());
        }
        let word = words.word()?;
        let Some(first) = first_word(word) else {
            return Err(Refusal::Fault(Rule::UnknownWord));
        };
        unless(!stands_in(first, self.current.kind), Rule::WrongPlace)?;
        self.said(alloc, first, line, &mut words)
    }
}
