//! The copy of the Pascal text.
ghost use Rattle.std.specs.Prelude.{◌≡◌, ℕ, [], ◌++◌, List, true, false, take};
ghost use Rattle.tangle_core.specs.inner.Filling.{IsReady};

use crate::TextCopy;
use std::alloc::Global;
use wb_base::Text;

impl TextCopy {
    // A copy that is not wanted.
    pub(crate) fn none(alloc: Global) -> TextCopy
        ensures { result ≡ record { kept = []; wanted = false; refused = false } }
    {
        TextCopy {
            kept: Text::new(alloc),
            wanted: false,
            refused: false,
        }
    }

    // Begins the copy anew, if it is wanted.
    pub(crate) fn begin(&mut self, alloc: Global)
        ensures unwanted { self.old.wanted ≡ false → self.new ≡ self.old }
        ensures wanted { self.new.wanted ≡ self.old.wanted }
        ensures ready { IsReady self.new }
    {
        if self.wanted {
            self.kept = Text::new(alloc);
            self.refused = false;
        }
    }

    // Adds more of the text, if the copy is wanted, up to so many bytes. Where no memory is found, the copy is refused.
    pub(crate) fn add(&mut self, piece: &[u8], limit: usize)
        ensures unwanted { self.old.wanted ≡ false → self.new ≡ self.old }
        ensures wanted { self.new.wanted ≡ self.old.wanted }
        ensures refused { self.new.refused ≡ false → self.old.refused ≡ false }
        ensures kept { self.old.wanted ≡ true → self.new.refused ≡ false → (bytes : List ℕ)
            → self.old.kept ≡ take limit bytes → self.new.kept ≡ take limit (bytes ++ piece.now) }
    {
        if !self.wanted || self.refused {
            return;
        }
        let room = limit.saturating_sub(self.kept.bytes().len());
        let more = &piece[..piece.len().min(room)];
        if self.kept.push_all(more).is_err() {
            self.refused = true;
        }
    }
}
