//! Which paths name key files, and what a file says of a key.

ghost use Rattle.std.specs.Prelude.{◌≡◌, ◌↔◌, IsTrue};
ghost use Rattle.std.specs.List.{list_all};
ghost use Rattle.std.specs.Str.{chars};
ghost use Rattle.ae_edge.specs.KeyFiles.{EndsLine, IsKeyOf, IsKeyPath, is_path_character};

use ae_base::texts::Txt;
use hex::FromHex;

/// The most characters of a path that names a file.
pub const MOST_CHARACTERS: usize = 64;

/// Whether a path names a file: it has 1 to 64 ASCII letters, digits, `_` and `-`.
pub(crate) fn is_key_path(path: &Txt) -> bool
    ensures { IsTrue result ↔ IsKeyPath path.now }
{
    let count = path.char_count();
    1 <= count && count <= MOST_CHARACTERS && has_path_characters(path.as_str())
}

fn has_path_characters(path: &str) -> bool
    ensures { result ≡ list_all is_path_character (chars path.now) }
{
    path.chars()
        .all(|c| c.is_ascii_alphanumeric() || c == '_' || c == '-')
}

/// The key that a file holds. There is one exactly where its content is 64 hexadecimal digits of
/// either case, and at most one LF after them.
pub(crate) fn key_of_file(content: &[u8]) -> Option<[u8; 32]>
    ensures { IsKeyOf result content.now }
{
    <[u8; 32] as FromHex>::from_hex(without_line_end(content)).ok()
}

/// The content without one LF at its end, where it has one.
fn without_line_end(content: &[u8]) -> &[u8]
    ensures { EndsLine result.now content.now }
{
    match content {
        [line @ .., b'\n'] => line,
        _ => content,
    }
}
