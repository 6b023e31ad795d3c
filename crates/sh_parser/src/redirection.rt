//! Redirections (section 2.7).

ghost use Rattle.std.specs.Prelude.{◌≡◌, ◌≤◌, ◌<◌, length};
ghost use Rattle.sh_tree.specs.declared.Redir.{Redir};
ghost use Rattle.sh_parser.specs.Faults.{direct, operator, target, spelled, directed};

use sh_text::{begins_with, follow, gap, is_end, is_word, reserved, tail};
use sh_tree::Redir;

/// What stands where a redirection begins.
#[derive(Clone, Copy)]
pub enum Direction {
    /// A redirection.
    To(Redir),
    /// One that this shell leaves out.
    LeftOut,
    /// The text ends within it.
    Open,
    /// In place of its word something else stands.
    Stopped,
}

/// What stands there, and the text after it, or from what stopped it.
#[derive(Drop)]
pub struct Directed<'a> {
    pub direction: Direction,
    pub rest: &'a [u8],
}

/// Reads the redirection at the front.
#[tactic(auto, unfolding(crate::specs::Faults::direct))]
pub fn direct(text: &[u8]) -> Directed<'_>
    ensures direction { result.direction ≡ (direct text.now).direction }
    ensures rest { result.rest.now ≡ (direct text.now).rest }
    ensures shorter { length result.rest.now ≤ length text.now }
    ensures strict { (redir : Redir) → result.direction ≡ Direction.To redir → length result.rest.now < length text.now }
{
    match follow(b">", text) {
        Some(rest) => operator(rest, Redir::OutNull, b"2", Redir::OutToErr),
        None => match follow(b"1>", text) {
            Some(rest) => operator(rest, Redir::OutNull, b"2", Redir::OutToErr),
            None => match follow(b"2>", text) {
                Some(rest) => operator(rest, Redir::ErrNull, b"1", Redir::ErrToOut),
                None => left_out(text),
            },
        },
    }
}

fn left_out(rest: &[u8]) -> Directed<'_>
    ensures direction { result.direction ≡ Direction.LeftOut }
    ensures rest { result.rest.now ≡ rest.now }
{
    Directed {
        direction: Direction::LeftOut,
        rest,
    }
}

// behind `>`: a file, or `&` and a stream
fn operator<'a>(text: &'a [u8], to_null: Redir, stream: &[u8], to_stream: Redir) -> Directed<'a>
    ensures direction { result.direction ≡ (operator to_null stream.now to_stream text.now).direction }
    ensures rest { result.rest.now ≡ (operator to_null stream.now to_stream text.now).rest }
    ensures shorter { length result.rest.now ≤ length text.now }
{
    if begins_with(b">", text) || begins_with(b"|", text) {
        return left_out(text);
    }
    match follow(b"&", text) {
        None => target(b"/dev/null", to_null, gap(text, false)),
        Some(rest) => target(stream, to_stream, gap(rest, false)),
    }
}

// the word of a redirection
fn target<'a>(word: &[u8], redir: Redir, text: &'a [u8]) -> Directed<'a>
    ensures direction { result.direction ≡ (target word.now redir text.now).direction }
    ensures rest { result.rest.now ≡ (target word.now redir text.now).rest }
    ensures shorter { length result.rest.now ≤ length text.now }
{
    if is_end(text) {
        return Directed {
            direction: Direction::Open,
            rest: tail(text),
        };
    }
    if !is_word(text) {
        return Directed {
            direction: Direction::Stopped,
            rest: text,
        };
    }
    match reserved(word, text) {
        None => left_out(text),
        Some(rest) => Directed {
            direction: Direction::To(redir),
            rest,
        },
    }
}
