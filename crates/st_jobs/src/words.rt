//! The form of the words, without memory: each is a file name, an option of the command, or the value of the option before
//! it. Only words of this form are read further, so no word that begins with `-` is ever a value, an abbreviation or a
//! call for help.
ghost use Rattle.std.specs.Prelude.{◌≡◌, map, None, is_some, option_map, string_bytes};
ghost use Rattle.st_jobs.specs.Words.{after_dash, name_and_value, option_in, is_among, mark_of, items_of};
ghost use Rattle.st_jobs.specs.Form.{next_waiting};

/// What follows a hyphen; `None` where the word has none at its front.
fn after_dash(word: &str) -> Option<&str>
    ensures { option_map (λ s. s.now) result ≡ after_dash word.now }
{
    word.strip_prefix('-')
}

/// A text `name`, or `name=value` cut at its first `=`.
fn name_and_value(text: &str) -> (&str, Option<&str>)
    ensures { (result.0.now, option_map (λ s. s.now) result.1) ≡ name_and_value text.now }
{
    match text.split_once('=') {
        Some((name, value)) => (name, Some(value)),
        None => (text, None),
    }
}

/// The parts of a word `--name` or `--name=value`; `None` where it doesn't begin with two hyphens.
fn option_in(word: &str) -> Option<(&str, Option<&str>)>
    ensures { option_map (λ p. (p.0.now, option_map (λ s. s.now) p.1)) result ≡ option_in word.now }
{
    let rest = after_dash(after_dash(word)?)?;
    Some(name_and_value(rest))
}

fn is_among(names: &[&str], name: &str) -> bool
    ensures { result ≡ is_among (map (λ s. s.now) names.now) name.now }
{
    for known in names {
        if *known == name {
            return true;
        }
    }
    false
}

/// Whether an option waits for its value after this word; `None` where the word may not stand.
fn next_waiting(names: &[&str], word: &str, waiting: bool) -> Option<bool>
    ensures { result ≡ next_waiting (mark_of (map (λ s. s.now) names.now) word.now) waiting }
{
    if after_dash(word).is_none() {
        return Some(false);
    }
    let (name, value) = option_in(word)?;
    if waiting || !is_among(names, name) {
        return None;
    }
    Some(value.is_none())
}

/// Whether the words have the form that a command with these options takes.
pub fn fits(names: &[&str], words: &[String]) -> bool
    ensures { result ≡ is_some (items_of (map (λ s. s.now) names.now) (map string_bytes words.now)) }
{
    let mut waiting = false;
    for word in words {
        match next_waiting(names, word.as_str(), waiting) {
            Some(next) => waiting = next,
            None => return false,
        }
    }
    !waiting
}
