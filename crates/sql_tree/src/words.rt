//! Keywords, in any case of letters.

ghost use Rattle.std.specs.Prelude.{◌≡◌, IsTrue, map};
ghost use Rattle.std.specs.List.{list_all};
ghost use Rattle.std.specs.Str.{bytes_eq, chars};
ghost use Rattle.sql_tree.specs.Reading.{is_capital};
ghost use Rattle.sql_tree.specs.Tokens.{in_capitals, named_in, keywords};

use crate::lexemes::Keyword;

/// Whether a text is a word in capitals, without regard to the case of its ASCII letters.
pub fn reads_as(text: &str, capitals: &str) -> bool
    requires { IsTrue (list_all is_capital capitals.now) }
    ensures { result ≡ bytes_eq capitals.now (in_capitals (chars text.now)) }
{
    text.eq_ignore_ascii_case(capitals)
}

/// The reserved words.
const KEYWORDS: [(&str, Keyword); 40] = [
    ("ADD", Keyword::Add),
    ("ALTER", Keyword::Alter),
    ("AND", Keyword::And),
    ("AS", Keyword::As),
    ("ASC", Keyword::Asc),
    ("BEGIN", Keyword::Begin),
    ("BY", Keyword::By),
    ("COLLATE", Keyword::Collate),
    ("COLUMN", Keyword::Column),
    ("COMMIT", Keyword::Commit),
    ("CREATE", Keyword::Create),
    ("DELETE", Keyword::Delete),
    ("DESC", Keyword::Desc),
    ("DISTINCT", Keyword::Distinct),
    ("DROP", Keyword::Drop),
    ("FROM", Keyword::From),
    ("GROUP", Keyword::Group),
    ("IN", Keyword::In),
    ("INNER", Keyword::Inner),
    ("INSERT", Keyword::Insert),
    ("INTO", Keyword::Into),
    ("IS", Keyword::Is),
    ("JOIN", Keyword::Join),
    ("KEY", Keyword::Key),
    ("NOT", Keyword::Not),
    ("NULL", Keyword::Null),
    ("ON", Keyword::On),
    ("OR", Keyword::Or),
    ("ORDER", Keyword::Order),
    ("ROLLBACK", Keyword::Rollback),
    ("SELECT", Keyword::Select),
    ("SET", Keyword::Set),
    ("TABLE", Keyword::Table),
    ("TOP", Keyword::Top),
    ("TRANSACTION", Keyword::Transaction),
    ("UNIQUE", Keyword::Unique),
    ("UPDATE", Keyword::Update),
    ("VALUES", Keyword::Values),
    ("WHERE", Keyword::Where),
    ("WITH", Keyword::With),
];

/// The reserved word that a text is, in any case.
pub(crate) fn keyword_of(word: &str) -> Option<Keyword>
    ensures { result ≡ named_in keywords (in_capitals (chars word.now)) }
{
    named_among(&KEYWORDS, word)
}

/// The reserved word that a text is in a table.
fn named_among(mut table: &[(&str, Keyword)], word: &str) -> Option<Keyword>
    requires { IsTrue (list_all (λ entry. list_all is_capital entry.0.now) table.now) }
    ensures { result ≡ named_in (map (λ entry. (entry.0.now, entry.1)) table.entry.now)
        (in_capitals (chars word.now)) }
{
    while let [entry, rest @ ..] = table {
        if reads_as(word, entry.0) {
            return Some(entry.1);
        }
        table = rest;
    }
    None
}
