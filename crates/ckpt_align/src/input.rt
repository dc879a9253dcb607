//! How an input is.

ghost use Rattle.std.specs.Prelude.{◌≡◌, Bool};
ghost use Rattle.ckpt_align.specs.Alignment.{is_held, is_open, released};

/// How an input is.
#[derive(Clone, Copy, Debug, PartialEq, Eq)]
pub enum Input {
    /// Its elements may be processed.
    Open,
    /// It has delivered the barrier of the record that is being aligned. Nothing of it may be
    /// processed until the cut.
    Held,
    /// It has ended.
    Ended,
}

impl Input {
    /// Whether the input is held.
    pub fn is_held(self) -> bool
        ensures { result ≡ is_held self }
    {
        matches!(self, Input::Held)
    }

    /// Whether the input is open.
    pub fn is_open(self) -> bool
        ensures { result ≡ is_open self }
    {
        matches!(self, Input::Open)
    }

    /// The input as it is once no record is being aligned.
    pub fn released(self) -> Input
        ensures { result ≡ released self }
    {
        match self {
            Input::Held => Input::Open,
            input => input,
        }
    }
}
