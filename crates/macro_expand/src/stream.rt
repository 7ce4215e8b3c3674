//! The expansion of a web, item by item.
ghost use Rattle.std.specs.Prelude.{◌≡◌, ◌≤◌, ◌∷◌, [], length, Some, None, IfOk, IfErr, IfSome, IfNone, OnErr};
ghost use Rattle.macro_expand.specs.Items.{item_of};
ghost use Rattle.macro_expand.specs.Foldable.{IsFoldable};
ghost use Rattle.macro_expand.specs.Expansion.{Expansion, expansion_of, stopped};

use crate::items::Item;
use crate::limits::STEP_LIMIT;
use crate::refusals::ExpandErr;
use crate::stack::Stack;
use std::marker::Model;
use web_scan::Web;

/// The items of the expansion of a web, one at a time. To contracts it is what the expansion still gives. It takes no
/// memory: at most `LEVEL_LIMIT` levels are open, each a part of the web's stored tokens, and no token is copied.
#[derive(Drop)]
pub struct Stream<'w> {
    stack: Stack<'w>,
}

impl<'w> Model for Stream<'w> {
    ghost use Rattle.macro_expand.specs.Expansion.{Expansion, given_by};
    ghost use Rattle.macro_expand.specs.inner.Answers.{list_left, IsSound};

    ghost Value = { Expansion };

    ghost view = { λ stream. given_by stream.stack.web.now stream.stack.steps (list_left stream.stack) };

    ghost invariant = { λ stream. IsSound stream.stack };
}

impl<'w> Stream<'w> {
    /// The expansion of a web, from its begin.
    pub fn new(web: &'w Web) -> Stream<'w>
        ensures whole { result ≡ expansion_of web.now }
        ensures few { length result.items ≤ STEP_LIMIT }
    {
        Stream {
            stack: Stack::new(web),
        }
    }

    /// The next item, or none at the end.
    ///
    /// # Errors
    ///
    /// The fault that ends the expansion. The same fault then comes again.
    pub fn next(&mut self) -> Result<Option<Item<'w>>, ExpandErr>
        ensures item { IfOk result (λ found. IfSome found (λ item.
            self.old ≡ record { items = item_of item ∷ self.new.items; fault = self.new.fault })) }
        ensures none { IfOk result (λ found. IfNone found (self.old ≡ stopped None)) }
        ensures fault { IfErr result (λ fault. self.old ≡ stopped (Some fault)) }
        ensures unchanged { OnErr result (self.new ≡ self.old) }
        ensures none_unchanged { IfOk result (λ found. IfNone found (self.new ≡ self.old)) }
        ensures lawful { IfOk result (λ found. IfSome found (λ item. IsFoldable (item_of item))) }
    {
        'removed: while !self.stack.is_empty() {
            if let Some(item) = self.stack.remove_head()? {
                return Ok(Some(item));
            }
        }
        Ok(None)
    }
}
