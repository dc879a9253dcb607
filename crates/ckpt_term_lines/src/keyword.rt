//! The first words of the lines that scripts do not have, and how to recognize them.
ghost use Rattle.std.specs.Prelude.{◌≡◌};
ghost use Rattle.ckpt_term_lines.specs.TermKeywords.{term_keyword_of, term_spelling};

/// The first word of a line that scripts do not have.
#[derive(Clone, Copy, Debug, PartialEq, Eq)]
pub(crate) enum TermKeyword {
    Fence,
    Reserve,
    Forfeit,
    Advance,
    In,
    Trigger,
    Configure,
}

const KEYWORDS: [TermKeyword; 7] = [
    TermKeyword::Fence,
    TermKeyword::Reserve,
    TermKeyword::Forfeit,
    TermKeyword::Advance,
    TermKeyword::In,
    TermKeyword::Trigger,
    TermKeyword::Configure,
];

/// The spelling of the keyword in a log.
fn spelling(keyword: TermKeyword) -> &'static [u8]
    ensures { result.now ≡ term_spelling keyword }
{
    match keyword {
        TermKeyword::Fence => b"fence",
        TermKeyword::Reserve => b"reserve",
        TermKeyword::Forfeit => b"forfeit",
        TermKeyword::Advance => b"advance",
        TermKeyword::In => b"in",
        TermKeyword::Trigger => b"trigger",
        TermKeyword::Configure => b"configure",
    }
}

/// The keyword with this spelling, or `None`. Compares the word with one keyword after the other.
pub(crate) fn keyword_of(word: &[u8]) -> Option<TermKeyword>
    ensures { result ≡ term_keyword_of word.now }
{
    KEYWORDS
        .iter()
        .find(|keyword| spelling(**keyword) == word)
        .copied()
}
