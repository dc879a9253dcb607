//! The first words of lines, and how to recognize them.
ghost use Rattle.std.specs.Prelude.{◌≡◌, true, IfNone};
ghost use Rattle.std.specs.Option.{IfSome};
ghost use Rattle.ckpt_lines.specs.Keywords.{keyword_of, spelling};
ghost use Rattle.ckpt_lines.specs.Usual.{BeginsWith, BeginsWithNone, is_long, is_recognized};

/// The first word of a line. It says which kind of line it is.
#[derive(Clone, Copy, Debug, PartialEq, Eq)]
pub(crate) enum Keyword {
    Config,
    Job,
    Start,
    Tick,
    Savepoint,
    Ack,
    Decline,
    Dispose,
    Restore,
    Cancel,
    Take,
    Deleted,
    Undeleted,
    Show,
    Count,
    All,
}

const KEYWORDS: [Keyword; 16] = [
    Keyword::Config,
    Keyword::Job,
    Keyword::Start,
    Keyword::Tick,
    Keyword::Savepoint,
    Keyword::Ack,
    Keyword::Decline,
    Keyword::Dispose,
    Keyword::Restore,
    Keyword::Cancel,
    Keyword::Take,
    Keyword::Deleted,
    Keyword::Undeleted,
    Keyword::Show,
    Keyword::Count,
    Keyword::All,
];

/// The spelling of the keyword in a script.
fn spelling(keyword: Keyword) -> &'static [u8]
    ensures { result.now ≡ spelling keyword }
{
    match keyword {
        Keyword::Config => b"config",
        Keyword::Job => b"job",
        Keyword::Start => b"start",
        Keyword::Tick => b"tick",
        Keyword::Savepoint => b"savepoint",
        Keyword::Ack => b"ack",
        Keyword::Decline => b"decline",
        Keyword::Dispose => b"dispose",
        Keyword::Restore => b"restore",
        Keyword::Cancel => b"cancel",
        Keyword::Take => b"take",
        Keyword::Deleted => b"deleted",
        Keyword::Undeleted => b"undeleted",
        Keyword::Show => b"show",
        Keyword::Count => b"count",
        Keyword::All => b"all",
    }
}

/// The keyword with this spelling, or `None`. Compares the word with one keyword after the other.
pub(crate) fn keyword_of(word: &[u8]) -> Option<Keyword>
    ensures { result ≡ keyword_of word.now }
{
    KEYWORDS
        .iter()
        .find(|keyword| spelling(**keyword) == word)
        .copied()
}

/// The keyword that the text begins with, and what follows the space after it. `None` if the text
/// begins with none of these, or if no space follows at once. Then the line may still begin with a
/// keyword.
///
/// Most of the hundreds of thousands of lines of a long script begin with these. So they are
/// recognized by their bytes, before the end of the word is known. The bytes are written one by
/// one, because a byte string can't be a pattern for the prefix of a slice.
#[inline(always)]
pub(crate) fn usual_keyword(text: &[u8]) -> Option<(Keyword, &[u8])>
    ensures found { IfSome result (λ found. BeginsWith text.now found.0 found.1.now) }
    ensures recognized { IfSome result (λ found. is_recognized found.0 ≡ true) }
    ensures none { IfNone result (BeginsWithNone is_recognized text.now) }
{
    match text {
        [b't', b'i', b'c', b'k', b' ', rest @ ..] => Some((Keyword::Tick, rest)),
        [b'a', b'c', b'k', b' ', rest @ ..] => Some((Keyword::Ack, rest)),
        [b't', b'a', b'k', b'e', b' ', rest @ ..] => Some((Keyword::Take, rest)),
        [b'd', b'e', b'l', b'e', b't', b'e', b'd', b' ', rest @ ..] => Some((
            Keyword::Deleted,
            rest,
        )),
        [b'd', b'i', b's', b'p', b'o', b's', b'e', b' ', rest @ ..] => Some((
            Keyword::Dispose,
            rest,
        )),
        [b'c', b'o', b'u', b'n', b't', b' ', rest @ ..] => Some((Keyword::Count, rest)),
        _ => long_keyword(text),
    }
}

/// The same as [`usual_keyword`] for the two longest ones, which it tries last: their bytes take a
/// line each.
fn long_keyword(text: &[u8]) -> Option<(Keyword, &[u8])>
    ensures found { IfSome result (λ found. BeginsWith text.now found.0 found.1.now) }
    ensures recognized { IfSome result (λ found. is_long found.0 ≡ true) }
    ensures none { IfNone result (BeginsWithNone is_long text.now) }
{
    match text {
        [
            b's',
            b'a',
            b'v',
            b'e',
            b'p',
            b'o',
            b'i',
            b'n',
            b't',
            b' ',
            rest @ ..,
        ] => Some((Keyword::Savepoint, rest)),
        [
            b'u',
            b'n',
            b'd',
            b'e',
            b'l',
            b'e',
            b't',
            b'e',
            b'd',
            b' ',
            rest @ ..,
        ] => Some((Keyword::Undeleted, rest)),
        _ => None,
    }
}
