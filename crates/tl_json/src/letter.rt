// Letters.

ghost use Rattle.std.specs.Prelude.{◌≡◌};

/// The first item of a list that stands for an event, or for the result of a step or an admission.
#[derive(Clone, Copy, Debug, PartialEq, Eq)]
pub enum Letter {
    /// `a`: a call was admitted.
    Admitted,
    /// `s`: an instruction did nothing that the letters below describe.
    Plain,
    /// `l`: a node was locked.
    Locked,
    /// `r`: a field was read.
    Read,
    /// `w`: a field was written.
    Written,
    /// `f`: a node was freed.
    Freed,
    /// `e`: a value was emitted.
    Emitted,
    /// `d`: a call is done.
    Done,
    /// `b`: a call is blocked.
    Blocked,
    /// `o`: a call was over already.
    Over,
    /// `x`: a move was refused.
    Refused,
}

impl Letter {
    ghost use Rattle.tl_json.specs.Letters.{text_of, letter_of};

    pub fn as_str(self) -> &'static str
        ensures { result.now ≡ text_of self }
    {
        match self {
            Letter::Admitted => "a",
            Letter::Plain => "s",
            Letter::Locked => "l",
            Letter::Read => "r",
            Letter::Written => "w",
            Letter::Freed => "f",
            Letter::Emitted => "e",
            Letter::Done => "d",
            Letter::Blocked => "b",
            Letter::Over => "o",
            Letter::Refused => "x",
        }
    }

    /// The letter that the text spells, if it spells one.
    pub fn from_text(text: &str) -> Option<Letter>
        ensures { result ≡ letter_of text.now }
    {
        match text {
            "a" => Some(Letter::Admitted),
            "s" => Some(Letter::Plain),
            "l" => Some(Letter::Locked),
            "r" => Some(Letter::Read),
            "w" => Some(Letter::Written),
            "f" => Some(Letter::Freed),
            "e" => Some(Letter::Emitted),
            "d" => Some(Letter::Done),
            "b" => Some(Letter::Blocked),
            "o" => Some(Letter::Over),
            "x" => Some(Letter::Refused),
            _ => None,
        }
    }
}
