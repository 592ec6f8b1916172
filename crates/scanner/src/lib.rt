// Texts taken apart from their front: whether letters stand at a place, and which of some names does. At the end of a text nothing is found.

#![tactic(auto)]

ghost use Rattle.std.specs.Prelude.{◌≡◌, drop, option_map};
ghost use Rattle.scanner.specs.Scan.{starts_with};
ghost use Rattle.scanner.specs.Places.{behind, found_at, first_named};

// Whether letters stand at a place.
pub fn letters_at(text: &[u8], at: usize, letters: &[u8]) -> bool
    ensures { result ≡ starts_with letters.now (drop at text.now) }
{
    match text.get(at..) {
        Some(rest) => rest.starts_with(letters),
        None => letters.is_empty(),
    }
}

// The place after letters that stand at a place.
pub fn past(text: &[u8], at: usize, letters: &[u8]) -> Option<usize>
    ensures { option_map (λ next. drop next text.now) result ≡ behind letters.now (drop at text.now) }
{
    if letters_at(text, at, letters) {
        Some(at + letters.len())
    } else {
        None
    }
}

// The value of the first of some names that stands at a place, and the place after it.
pub fn value_at<T: Copy>(text: &[u8], at: usize, names: &[(&str, T)]) -> Option<(T, usize)>
    ensures { found_at text.now result ≡ first_named names.now (drop at text.now) }
{
    for (name, value) in names {
        if let Some(next) = past(text, at, name.as_bytes()) {
            return Some((*value, next));
        }
    }
    None
}
