//! The words of the viewer's command line.
ghost use Rattle.std.specs.Prelude.{◌≡◌, ◌↔◌, map, string_bytes, IfSome, IsNone, IsSome};
ghost use Rattle.viewing.specs.Words.{is_path, IsViewCall, paths_of, paths_in};

/// The paths that a call of the viewer names: of the instance, of the proof or the restart body, and of the picture.
#[derive(Clone, Copy, Drop)]
pub(crate) struct Paths<'a> {
    pub instance: &'a str,
    pub text: &'a str,
    pub out: &'a str,
}

/// Whether a word may be a path: it does not begin with a dash, as an option does.
fn may_be_path(word: &str) -> bool
    ensures { result ≡ is_path word.now }
{
    !matches!(word.as_bytes().first(), Some(b'-'))
}

/// The paths that words name, of which the first is the program's name, if they are of the viewer's form: three paths.
pub(crate) fn read_words(words: &[String]) -> Option<Paths<'_>>
    ensures call { IsSome result ↔ IsViewCall (map string_bytes words.now) }
    ensures paths { IfSome result (λ p. paths_in p ≡ paths_of (map string_bytes words.now)) }
{
    if words.len() != 4 {
        return None;
    }
    let (instance, text, out) = (words[1].as_str(), words[2].as_str(), words[3].as_str());
    if may_be_path(instance) && may_be_path(text) && may_be_path(out) {
        Some(Paths {
            instance,
            text,
            out,
        })
    } else {
        None
    }
}
