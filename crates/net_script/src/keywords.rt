//! The words of the language.

ghost use Rattle.std.specs.Prelude.{◌≡◌, Some, None, IfOk, IfErr};
ghost use Rattle.net_script.specs.Keywords.{form_of, keyword_of, words_for};
ghost use Rattle.net_script.specs.declared.fault.ScriptKind.{ScriptKind};

use crate::fault::ScriptKind;

/// What a line is, by its first word.
#[derive(Clone, Copy)]
pub(crate) enum Keyword {
    /// `iface`
    Iface,
    /// `flow`
    Flow,
    /// `at`
    At,
    /// `tftp`
    Tftp,
}

impl Keyword {
    /// The keyword that the word is, or `Unknown`.
    pub(crate) fn named(word: &[u8]) -> Result<Keyword, ScriptKind>
        ensures named { IfOk result (λ keyword. keyword_of word.now ≡ Some keyword) }
        ensures bad { IfErr result (λ kind. (kind ≡ ScriptKind.Unknown) × (keyword_of word.now ≡ None)) }
    {
        match word {
            b"iface" => Ok(Keyword::Iface),
            b"flow" => Ok(Keyword::Flow),
            b"at" => Ok(Keyword::At),
            b"tftp" => Ok(Keyword::Tftp),
            _ => Err(ScriptKind::Unknown),
        }
    }
}

/// What comes of an `at` line, by its third word.
#[derive(Clone, Copy)]
pub(crate) enum Form {
    /// `udp`: a datagram.
    Udp,
    /// `tcp`: bytes of a stream.
    Tcp,
    /// `echo`: an ICMPv6 echo message.
    Echo,
    /// `end`: the end of a stream.
    End,
    /// `reset`: the reset of a stream.
    Reset,
}

impl Form {
    /// The form that the word names, or `Unknown`.
    pub(crate) fn named(word: &[u8]) -> Result<Form, ScriptKind>
        ensures named { IfOk result (λ form. form_of word.now ≡ Some form) }
        ensures bad { IfErr result (λ kind. (kind ≡ ScriptKind.Unknown) × (form_of word.now ≡ None)) }
    {
        match word {
            b"udp" => Ok(Form::Udp),
            b"tcp" => Ok(Form::Tcp),
            b"echo" => Ok(Form::Echo),
            b"end" => Ok(Form::End),
            b"reset" => Ok(Form::Reset),
            _ => Err(ScriptKind::Unknown),
        }
    }

    /// How many words the line has.
    pub(crate) fn words(self) -> usize
        ensures { result ≡ words_for self }
    {
        match self {
            Form::Udp | Form::Echo => 5,
            Form::Tcp => 4,
            Form::End | Form::Reset => 3,
        }
    }
}
