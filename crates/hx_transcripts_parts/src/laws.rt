//! That each form of a transcript's lines is read back: what is read stands there in its one text, and what stands
//! there so is read. Each function is there for its clauses.
ghost use Rattle.std.specs.Prelude.{◌≡◌, ℕ, ◌<◌, ◌^◌, ◌≤◌, ◌++◌, Ok, List, All, length, codes, decimal};
ghost use Rattle.hx_base.specs.declared.totals.Totals.{Totals};
ghost use Rattle.hx_pool.specs.declared.entries.Entry.{Entry};
ghost use Rattle.hx_record.specs.declared.served.Told.{Told};
ghost use Rattle.hx_script.specs.declared.transcript.ServerPart.{ServerPart};
ghost use Rattle.hx_script.specs.LinkLines.{totals_text};
ghost use Rattle.hx_script.specs.MarkLines.{who, place_text};
ghost use Rattle.hx_script.specs.Numbers.{IsByte};
ghost use Rattle.hx_script.specs.PrintedForm.{IsToldMark, IsToldRecord};
ghost use Rattle.hx_script.specs.RecordLines.{span_text, conn_text};
ghost use Rattle.hx_script_parts.specs.ByteText.{quoted};
ghost use Rattle.hx_transcripts_parts.specs.Lexical.{Rest, rest_text, text_at};
ghost use Rattle.hx_transcripts_parts.specs.MarkLaws.{FitsMark, FitsRules, IsMarkLine, IsMarkRead, rules_text};
ghost use Rattle.hx_transcripts_parts.specs.Marks.{mark_at, rules_at};
ghost use Rattle.hx_transcripts_parts.specs.Numbers.{number_in};
ghost use Rattle.hx_transcripts_parts.specs.Pieces.{who_in, place_in, span_in, name_in, conn_in};
ghost use Rattle.hx_transcripts_parts.specs.ReadBack.{ReadsWord, ReadsNext, ReadsLine, AreNamed, FitsWho, FitsPlace, FitsSpan, FitsNames, FitsConn};
ghost use Rattle.hx_transcripts_parts.specs.RecordLaws.{FitsTold, FitsTotals, IsRecordLine, IsRecordRead};
ghost use Rattle.hx_transcripts_parts.specs.Records.{record_at, totals_at};
ghost use Rattle.hx_transcripts_parts.specs.declared.keywords.MarkWord.{MarkWord};
ghost use Rattle.hx_transcripts_parts.specs.declared.keywords.RecordWord.{RecordWord};

/// Numbers, sessions, places, ranges and names are read from their texts, and from no other words; so are
/// connections, where the servers have names and no two of them one.
pub fn words_read_back()
    ensures numbers { (most : ℕ) → most < 2 ^ 64 → ReadsWord (number_in most) decimal (λ n. n ≤ most) }
    ensures sessions { ReadsWord who_in (λ x. who x.0 x.1) FitsWho }
    ensures places { ReadsWord place_in place_text FitsPlace }
    ensures ranges { ReadsWord span_in span_text FitsSpan }
    ensures names { ReadsWord name_in (λ x. x.0 ++ codes "/" ++ x.1) FitsNames }
    ensures conns { (servers : List ServerPart) → AreNamed servers
        → ReadsWord (conn_in servers) (λ x. conn_text servers x.0 x.1) (FitsConn servers) }
{}

/// Bytes are read from their one spelling, and from no other text.
pub fn byte_texts_read_back()
    ensures { ReadsNext text_at quoted (All IsByte) }
{}

/// The rules of a server are read from the rest of its line, and from no other text.
pub fn rules_read_back()
    ensures { ReadsLine rules_at rules_text FitsRules }
{}

/// A mark is read from its line, and from no other.
pub fn marks_read_back()
    ensures sound { (first : MarkWord) (ws : Rest) (m : Entry) → mark_at first ws ≡ Ok m → IsMarkLine first ws m }
    ensures whole { (m : Entry) → IsToldMark m → FitsMark m → IsMarkRead m }
{}

/// A record is read from its line, and from no other, where the servers have names and no two of them one.
pub fn records_read_back()
    ensures sound { (servers : List ServerPart) → AreNamed servers → (first : RecordWord) (ws : Rest) (t : Told)
        → record_at servers first ws ≡ Ok t → IsRecordLine servers first ws t }
    ensures whole { (servers : List ServerPart) → AreNamed servers → (t : Told)
        → IsToldRecord (length servers) t → FitsTold t → IsRecordRead servers t }
{}

/// The counts of a server are read from the rest of its line, and from no other text.
pub fn totals_read_back()
    ensures sound { (ws : Rest) (t : Totals) → totals_at ws ≡ Ok t
        → FitsTotals t × (rest_text ws ++ codes "\n" ≡ totals_text t) }
    ensures whole { (t : Totals) → FitsTotals t
        → (ws : Rest) × (rest_text ws ++ codes "\n" ≡ totals_text t) × (totals_at ws ≡ Ok t) }
{}
