//! The settings of keys and of encrypted columns.

ghost use Rattle.std.specs.Prelude.{◌≡◌, ◌∷◌, [], List, Option, Some, None, IsTrue, codes};
ghost use Rattle.std.specs.List.{list_all};
ghost use Rattle.sql_tree.specs.Reading.{is_capital};
ghost use Rattle.sql_grammar.specs.Making as make;
ghost use Rattle.sql_grammar.specs.Parse as parse;
ghost use Rattle.sql_expressions.specs.Reads.{Gives};

use ae_base::blobs::Blob;
use ae_base::lists::Seq;
use ae_base::names::Name;
use ae_base::refusals::Refusal;
use ae_base::texts::Txt;
use sql_expressions::cursor::{Cursor, syntax};
use sql_expressions::reading::Reader;
use sql_grammar::settings::{KeySetting, MasterSetting};
use sql_tree::lexemes::Symbol;
use sql_tree::statements::EncryptionKind;
use sql_tree::words::reads_as;
use std::alloc::Global;

/// Reads a setting of a master key.
pub(crate) struct MasterSettingReader;

impl Reader for MasterSettingReader {
    ghost use Rattle.sql_grammar.specs.declared.settings.MasterSetting as declared;
    ghost use Rattle.sql_grammar.specs.Parse as parse;
    ghost use Rattle.sql_ddl.specs.Shortened.{master_setting_shortens};

    type Part = MasterSetting;

    ghost Tree = { declared.MasterSetting };

    ghost view = { λ setting. setting };

    ghost reading = { parse.master_setting };

    fn read(_alloc: Global, tokens: &mut Cursor) -> Result<MasterSetting, Refusal> {
        if tokens.next_reads("KEY_STORE_PROVIDER_NAME") {
            tokens.reads("KEY_STORE_PROVIDER_NAME")?;
            tokens.sign(Symbol::Equal)?;
            tokens.is_text("KEYFILE")?;
            return Ok(MasterSetting::Provider);
        }
        tokens.reads("KEY_PATH")?;
        tokens.sign(Symbol::Equal)?;
        Ok(MasterSetting::Path(tokens.text()?))
    }

    ghost shortens = { master_setting_shortens };
}

/// The path that the settings of a master key give, each once in any order.
#[tactic(auto, using(crate::proofs::Once::no_path, crate::proofs::Once::path_in_two))]
pub(crate) fn path_of(settings: Seq<MasterSetting>) -> Option<Txt>
    ensures { result ≡ make.path_in settings }
{
    let mut settings = settings.into_vec();
    if settings.len() != 2 {
        return None;
    }
    let second = settings.pop()?;
    let first = settings.pop()?;
    one_path(first, second)
}

fn one_path(first: MasterSetting, second: MasterSetting) -> Option<Txt>
    ensures { result ≡ make.path_in (first ∷ second ∷ []) }
{
    match (first, second) {
        (MasterSetting::Provider, MasterSetting::Path(path)) => Some(path),
        (MasterSetting::Path(path), MasterSetting::Provider) => Some(path),
        _ => None,
    }
}

/// DETERMINISTIC or RANDOMIZED.
fn encryption_kind(tokens: &mut Cursor) -> Result<EncryptionKind, Refusal>
    ensures { Gives (λ kind. kind) result tokens.new (parse.encryption_kind tokens.old) }
{
    let name = tokens.name()?;
    if reads_as(name.as_str(), "DETERMINISTIC") {
        return Ok(EncryptionKind::Deterministic);
    }
    if reads_as(name.as_str(), "RANDOMIZED") {
        return Ok(EncryptionKind::Randomized);
    }
    Err(syntax())
}

/// The setting that names a key.
fn key_setting<V: Drop>(tokens: &mut Cursor, word: &str) -> Result<KeySetting<V>, Refusal>
    requires { IsTrue (list_all is_capital word.now) }
    ensures { Gives (λ setting. setting) result tokens.new (parse.key_name word.now tokens.old) }
{
    tokens.reads(word)?;
    tokens.sign(Symbol::Equal)?;
    Ok(KeySetting::Key(tokens.name()?))
}

/// The setting that names the algorithm.
fn algorithm<V: Drop>(tokens: &mut Cursor, text: &str) -> Result<KeySetting<V>, Refusal>
    ensures { Gives (λ setting. setting) result tokens.new (parse.algorithm text.now tokens.old) }
{
    tokens.reads("ALGORITHM")?;
    tokens.sign(Symbol::Equal)?;
    tokens.is_text(text)?;
    Ok(KeySetting::Algorithm)
}

/// Reads a setting of ENCRYPTED WITH.
pub(crate) struct ColumnSettingReader;

impl Reader for ColumnSettingReader {
    ghost use Rattle.std.specs.Prelude.{codes, refl};
    ghost use Rattle.sql_tree.specs.declared.statements.EncryptionKind as kind;
    ghost use Rattle.sql_grammar.specs.declared.settings.KeySetting as declared;
    ghost use Rattle.sql_grammar.specs.Parse as parse;
    ghost use Rattle.sql_ddl.specs.Shortened.{column_setting_shortens};

    type Part = KeySetting<EncryptionKind>;

    ghost Tree = { declared.KeySetting kind.EncryptionKind };

    ghost view = { λ setting. setting };

    ghost reading = { parse.column_setting };

    fn read(_alloc: Global, tokens: &mut Cursor) -> Result<KeySetting<EncryptionKind>, Refusal> {
        if tokens.next_reads("COLUMN_ENCRYPTION_KEY") {
            return key_setting(tokens, "COLUMN_ENCRYPTION_KEY");
        }
        if tokens.next_reads("ALGORITHM") {
            return algorithm(tokens, "AEAD_AES_256_CBC_HMAC_SHA256");
        }
        tokens.reads("ENCRYPTION_TYPE")?;
        tokens.sign(Symbol::Equal)?;
        Ok(KeySetting::Value(encryption_kind(tokens)?))
    }

    ghost shortens = { column_setting_shortens };
}

/// Reads a setting of a column key.
pub(crate) struct WrappedSettingReader;

impl Reader for WrappedSettingReader {
    ghost use Rattle.std.specs.Prelude.{List, ℕ};
    ghost use Rattle.sql_grammar.specs.declared.settings.KeySetting as declared;
    ghost use Rattle.sql_grammar.specs.Parse as parse;
    ghost use Rattle.sql_ddl.specs.Shortened.{wrapped_setting_shortens};

    type Part = KeySetting<Blob>;

    ghost Tree = { declared.KeySetting (List ℕ) };

    ghost view = { λ setting. setting };

    ghost reading = { parse.wrapped_setting };

    fn read(_alloc: Global, tokens: &mut Cursor) -> Result<KeySetting<Blob>, Refusal> {
        if tokens.next_reads("COLUMN_MASTER_KEY") {
            return key_setting(tokens, "COLUMN_MASTER_KEY");
        }
        if tokens.next_reads("ALGORITHM") {
            return algorithm(tokens, "AES_256_KW");
        }
        tokens.reads("ENCRYPTED_VALUE")?;
        tokens.sign(Symbol::Equal)?;
        Ok(KeySetting::Value(tokens.binary()?))
    }

    ghost shortens = { wrapped_setting_shortens };
}

/// The key and the value that three settings give, each once in any order.
#[tactic(auto, using(crate::proofs::Once::no_key, crate::proofs::Once::key_in_three))]
pub(crate) fn key_of<V: Drop>(settings: Seq<KeySetting<V>>) -> Option<(Name, V)>
    ensures { result ≡ make.key_in settings }
{
    let mut settings = settings.into_vec();
    if settings.len() != 3 {
        return None;
    }
    let third = settings.pop()?;
    let second = settings.pop()?;
    let first = settings.pop()?;
    each_once(first, second, third)
}

fn each_once<V: Drop>(
    first: KeySetting<V>,
    second: KeySetting<V>,
    third: KeySetting<V>,
) -> Option<(Name, V)>
    ensures { result ≡ make.key_in (first ∷ second ∷ third ∷ []) }
{
    match (first, second, third) {
        (KeySetting::Key(name), KeySetting::Algorithm, KeySetting::Value(value))
        | (KeySetting::Key(name), KeySetting::Value(value), KeySetting::Algorithm)
        | (KeySetting::Algorithm, KeySetting::Key(name), KeySetting::Value(value))
        | (KeySetting::Algorithm, KeySetting::Value(value), KeySetting::Key(name))
        | (KeySetting::Value(value), KeySetting::Key(name), KeySetting::Algorithm)
        | (KeySetting::Value(value), KeySetting::Algorithm, KeySetting::Key(name)) => {
            Some((name, value))
        }
        _ => None,
    }
}
