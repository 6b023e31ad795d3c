//! What of an installer is its script: the text through the first line that is just `exit_marker`. The rest is its payload.
#![tactic(auto)]

ghost use Rattle.std.specs.Prelude.{◌≡◌, ◌≤◌, ◌++◌, ◌∷◌, [], ◌==◌, true, List, ℕ, length, take, drop, MatchOption};
ghost use Rattle.sh_script.specs.Splitting.{Splits, marker};

#[cfg(test)]
mod tests;

/// The line that ends a script, with its line end.
const MARKER: &[u8] = b"exit_marker\n";

/// The script of an installer, through its first line that is just `exit_marker`, and the payload behind that line. A text
/// without such a line is a script, and its payload is empty. Takes no memory.
pub fn split(installer: &[u8]) -> (&[u8], &[u8])
    ensures splits { Splits true installer.now result.0.now result.1.now }
    ensures whole { result.0.now ++ result.1.now ≡ installer.now }
{
    installer.split_at(script_length(installer))
}

// how many bytes the script has
fn script_length(installer: &[u8]) -> usize
    ensures within { result ≤ length installer.now }
    ensures splits { Splits true installer.now (take result installer.now) (drop result installer.now) }
{
    let mut rest = installer;
    let mut starts = true;
    'bytes: loop {
        if let Some(payload) = past_marker(starts, rest) {
            return installer.len() - payload.len();
        }
        let (c, more) = match first(rest) {
            None => return installer.len(),
            Some(pair) => pair,
        };
        starts = is_line_end(c);
        rest = more;
    }
}

fn first(text: &[u8]) -> Option<(u8, &[u8])>
    ensures { MatchOption result (text.now ≡ []) (λ p. text.now ≡ p.0 ∷ p.1.now) }
{
    match text {
        [] => None,
        [c, rest @ ..] => Some((*c, rest)),
    }
}

fn is_line_end(c: u8) -> bool
    ensures { result ≡ (c == 10) }
{
    c == 10
}

// what follows the marker's line, where it begins here
fn past_marker(starts: bool, text: &[u8]) -> Option<&[u8]>
    ensures { MatchOption result (starts ≡ true → (rest : List ℕ) → text.now ≡ marker ++ rest → ⊥)
        (λ r. (starts ≡ true) × (text.now ≡ marker ++ r.now)) }
{
    if !starts {
        return None;
    }
    text.strip_prefix(MARKER)
}
