//! The open levels of an expansion.
ghost use Rattle.std.specs.Prelude.{◌≡◌, ℕ, List, [], None, All, length};
ghost use Rattle.web_scan.specs.Pieces.{IsPieceWithin};
ghost use Rattle.macro_expand.specs.inner.Levels.{Level, level_of, is_finished, IsLevel, HaveSameArgument};
ghost use Rattle.macro_expand.specs.inner.Heads.{Splits, IsHeadOf};

use wb_base::Tok;
use web_scan::{Piece, Web};

// What stands for a parameter: a part of the text of a level, and the number of the level whose argument a parameter
// in that part stands for.
#[derive(Clone, Copy, Default)]
pub(crate) struct Argument<'w> {
    pub(crate) text: &'w [Tok],
    pub(crate) environment: usize,
}

// An open level: what of the replacement of a macro, a section name or a parameter is still to come.
#[derive(Clone, Copy, Default)]
pub(crate) struct Frame<'w> {
    // The rest of the text that is read.
    pub(crate) text: &'w [Tok],
    // The number of the section whose text that is, if it is one's.
    pub(crate) section: Option<u32>,
    // The texts of the section behind it.
    pub(crate) pieces: &'w [Piece],
    // The number of the level whose argument a parameter in these texts stands for.
    pub(crate) environment: usize,
    // The argument, if the text is a parametric macro's.
    pub(crate) argument: Argument<'w>,
}

// The head of what a level still gives.
pub(crate) enum Head<'w> {
    Token(&'w Tok),
    Parameter,
    Open(u32),
    Close(u32),
    End,
}

impl<'w> Frame<'w> {
    // The level of this number for the text of a macro with this argument.
    pub(crate) fn of_macro(text: &'w [Tok], argument: Argument<'w>, number: usize) -> Frame<'w>
        ensures { level_of result ≡ record {
          text = text.now;
          section = None;
          pieces = [];
          environment = number;
          argument = argument.entry.text.now;
          meant = argument.entry.environment;
        } }
    {
        Frame {
            text,
            section: None,
            pieces: &[],
            environment: number,
            argument,
        }
    }

    // The level of this number for the texts of a section.
    pub(crate) fn of_pieces(pieces: &'w [Piece], number: usize) -> Frame<'w>
        ensures { level_of result ≡ record {
          text = [];
          section = None;
          pieces = pieces.now;
          environment = number;
          argument = [];
          meant = 0;
        } }
    {
        Frame {
            text: &[],
            section: None,
            pieces,
            environment: number,
            argument: Argument::default(),
        }
    }

    // A level for an argument.
    pub(crate) fn of_argument(argument: Argument<'w>) -> Frame<'w>
        ensures { level_of result ≡ record {
          text = argument.entry.text.now;
          section = None;
          pieces = [];
          environment = argument.entry.environment;
          argument = [];
          meant = 0;
        } }
    {
        Frame {
            text: argument.text,
            section: None,
            pieces: &[],
            environment: argument.environment,
            argument: Argument::default(),
        }
    }

    // Whether nothing but its end is still to come.
    pub(crate) fn is_finished(&self) -> bool
        ensures { result ≡ is_finished (level_of self.now) }
    {
        self.text.is_empty() && self.section.is_none() && self.pieces.is_empty()
    }

    // The head of the level, and the level behind it.
    pub(crate) fn split_head(&self, web: &'w Web) -> (Head<'w>, Frame<'w>)
        requires { All (IsPieceWithin (length web.now.tokens)) self.now.pieces.now }
        ensures split { (lower : List Level)
            → Splits web.now.tokens lower (level_of self.now) result.0 (level_of result.1) }
        ensures kept { (number : ℕ) → IsLevel web.now number (level_of self.now)
            → IsLevel web.now number (level_of result.1) × IsHeadOf web.now result.0 }
        ensures same { HaveSameArgument (level_of self.now) (level_of result.1) }
    {
        match self.text {
            [Tok::Param, text @ ..] => (Head::Parameter, Frame { text, ..*self }),
            [token, text @ ..] => (Head::Token(token), Frame { text, ..*self }),
            [] => self.split_mark(web),
        }
    }

    // The same at the end of a text.
    fn split_mark(&self, web: &'w Web) -> (Head<'w>, Frame<'w>)
        requires pieces { All (IsPieceWithin (length web.now.tokens)) self.now.pieces.now }
        requires ended { self.now.text.now ≡ [] }
        ensures split { (lower : List Level)
            → Splits web.now.tokens lower (level_of self.now) result.0 (level_of result.1) }
        ensures kept { (number : ℕ) → IsLevel web.now number (level_of self.now)
            → IsLevel web.now number (level_of result.1) × IsHeadOf web.now result.0 }
        ensures same { HaveSameArgument (level_of self.now) (level_of result.1) }
    {
        if let Some(number) = self.section {
            return (
                Head::Close(number),
                Frame {
                    section: None,
                    ..*self
                },
            );
        }
        match self.pieces {
            [piece, pieces @ ..] => {
                let text = web.tokens(piece.first, piece.count);
                let section = Some(piece.number);
                (
                    Head::Open(piece.number),
                    Frame {
                        text,
                        section,
                        pieces,
                        ..*self
                    },
                )
            }
            [] => (Head::End, *self),
        }
    }
}
