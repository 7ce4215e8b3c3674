//! Lists of lines.
ghost use Rattle.std.specs.Prelude.{◌≡◌, ◌<◌, Some, length, map, slice_get};
ghost use Rattle.change_merge.specs.inner.Spans.{lines_at, AllInside};

use crate::spans::{Span, line_bytes};
use std::marker::Model;
use wb_base::Place;

/// A list of lines, each with its place and its bytes, without the byte 10 that ends it and without the white space at
/// its end. To contracts it is that list. It keeps one copy of the text, and 20 bytes a line.
#[derive(Drop)]
pub struct Lines {
    text: Vec<u8>,
    spans: Vec<Span>,
}

impl Model for Lines {
    ghost use Rattle.std.specs.Prelude.{List};
    ghost use Rattle.change_merge.specs.Lines.{Line};

    ghost Value = { List Line };

    ghost use Rattle.change_merge.specs.inner.Spans.{lines_at, AllInside};

    ghost view = { λ list. lines_at list.text.items list.spans.items };

    ghost invariant = { λ list. AllInside list.text.items list.spans.items };
}

impl Lines {
    // The lines at these spans of a text.
    pub(crate) fn new(text: Vec<u8>, spans: Vec<Span>) -> Lines
        requires { AllInside text.items spans.items }
        ensures { result ≡ lines_at text.items spans.items }
    {
        Lines { text, spans }
    }

    /// How many lines there are.
    pub fn count(&self) -> usize
        ensures { result ≡ length self.now }
    {
        self.spans.len()
    }

    /// The bytes of the line at this index, from 0.
    pub fn line(&self, index: usize) -> &[u8]
        requires { index < length self.now }
        ensures { slice_get (map (λ line. line.bytes) self.now) index ≡ Some result.now }
    {
        line_bytes(&self.text, &self.spans[index])
    }

    /// The place of the line at this index, from 0.
    pub fn place(&self, index: usize) -> Place
        requires { index < length self.now }
        ensures { slice_get (map (λ line. line.place) self.now) index ≡ Some result }
    {
        self.spans[index].place
    }
}
