//! What the words of a command line ask for.

ghost use Rattle.std.specs.Prelude.{◌≡◌};
ghost use Rattle.view_command.specs.Words.{asks_page};

use ae_base::texts::Txt;

/// Whether the words, of which the first is the program's name, ask for a page or for lines of
/// text. Other words ask for neither.
pub fn asks_page(words: &[Txt]) -> Option<bool>
    ensures { result ≡ asks_page words.now }
{
    match words {
        [] | [_] => Some(false),
        [_, word] => {
            if word.as_str() == "--page" {
                Some(true)
            } else {
                None
            }
        }
        [_, _, _, ..] => None,
    }
}
