//! The words of a line, in order.
ghost use Rattle.ios_words.specs.Spans.{LieIn};

use arc_base::Span;

/// The words of a line that are left.
#[derive(Clone, Copy, Debug)]
pub(crate) struct Words<'a> {
    text: &'a [u8],
    spans: &'a [Span],
    ghost within: { LieIn text.now spans.now },
}

impl<'a> Words<'a> {
    ghost use Rattle.ios_words.specs.Candidates.{letter};
    ghost use Rattle.ios_words.specs.Readings.{begins, begins_verdict, begins_entry};
    ghost use Rattle.ios_words.specs.Spans.{words_at};
    ghost use Rattle.ios_words.specs.Views.{words_of};
    ghost use Rattle.std.specs.Prelude.{◌≡◌, [], ◌∷◌, ◌||◌, drop, MatchOption};

    /// The words of a text at these spans.
    pub(crate) fn at(text: &'a [u8], spans: &'a [Span]) -> Words<'a>
        requires { LieIn text.now spans.now }
        ensures { words_of result ≡ words_at text.now spans.now }
    {
        Words { text, spans }
    }

    /// The first word and those after it.
    pub(crate) fn split(self) -> Option<(&'a [u8], Words<'a>)>
        ensures { MatchOption result (words_of self.entry ≡ []) (λ both.
            words_of self.entry ≡ both.0.now ∷ words_of both.1) }
    {
        match self.spans {
            [] => None,
            [span, spans @ ..] => {
                let word = &self.text[span.from as usize..span.to as usize];
                Some((
                    word,
                    Words {
                        text: self.text,
                        spans,
                    },
                ))
            }
        }
    }

    /// The words after the first.
    pub(crate) fn rest(self) -> Words<'a>
        ensures { words_of result ≡ drop 1 (words_of self.entry) }
    {
        match self.split() {
            Some((_, rest)) => rest,
            None => self,
        }
    }

    /// No words.
    pub(crate) fn none(self) -> Words<'a>
        ensures { words_of result ≡ [] }
    {
        Words {
            text: self.text,
            spans: &[],
        }
    }

    /// The first byte of the first word, or 0 where there is none.
    pub(crate) fn letter(self) -> u8
        ensures { result ≡ letter (words_of self.entry) }
    {
        match self.split() {
            Some((first, _)) => match first {
                [letter, ..] => *letter,
                [] => 0,
            },
            None => 0,
        }
    }

    /// Whether the first is this word.
    pub(crate) fn begin_with(self, word: &[u8]) -> bool
        ensures { result ≡ begins word.now (words_of self.entry) }
    {
        match self.split() {
            Some((first, _)) => first == word,
            None => false,
        }
    }

    /// Whether the first is `permit` or `deny`.
    pub(crate) fn begin_with_verdict(self) -> bool
        ensures { result ≡ begins_verdict (words_of self.entry) }
    {
        self.begin_with(b"permit") || self.begin_with(b"deny")
    }

    /// Whether they begin as an entry without a number does.
    pub(crate) fn begin_entry(self) -> bool
        ensures { result ≡ begins_entry (words_of self.entry) }
    {
        self.begin_with_verdict() || self.begin_with(b"remark")
    }
}
