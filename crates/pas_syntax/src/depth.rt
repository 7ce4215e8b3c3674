//! How deep a place lies.
ghost use Rattle.std.specs.Prelude.{◌+◌, IfOk, IfErr};
ghost use Rattle.pas_syntax.specs.inner.Deeps.{IsInForm, IsInOperand, IsTooDeep};

use crate::limits::NESTING_LIMIT;
use crate::stop::Stop;
use wb_base::faults::NESTING_PAST_LIMIT;

// How deep a place lies: in so many open forms, and in the operands of so many operators before it.
#[derive(Clone, Copy)]
pub(crate) struct Depth {
    pub(crate) forms: usize,
    pub(crate) operators: usize,
}

impl Depth {
    // Outside of all forms and operands.
    pub(crate) const OUTSIDE: Depth = Depth {
        forms: 0,
        operators: 0,
    };

    // Within one form more.
    pub(crate) fn in_form(self) -> Result<Depth, Stop>
        ensures ok { IfOk result (IsInForm self) }
        ensures err { IfErr result (IsTooDeep (self.forms + 1)) }
    {
        if self.forms >= NESTING_LIMIT {
            return Err(Stop::LeftOut(NESTING_PAST_LIMIT));
        }
        Ok(Depth {
            forms: self.forms + 1,
            operators: self.operators,
        })
    }

    // Within the operand behind an operator, where so many operators stand on the longest way down through the one
    // before it.
    pub(crate) fn in_operand(self, left: usize) -> Result<Depth, Stop>
        ensures ok { IfOk result (IsInOperand self left) }
        ensures err { IfErr result (IsTooDeep (self.operators + 1 + left)) }
    {
        if left >= NESTING_LIMIT.saturating_sub(self.operators) {
            return Err(Stop::LeftOut(NESTING_PAST_LIMIT));
        }
        Ok(Depth {
            forms: self.forms,
            operators: self.operators + 1,
        })
    }
}

// A part of an expression, and how many operators stand on the longest way down through it.
#[derive(Drop)]
pub(crate) struct Deep<T> {
    pub(crate) tree: T,
    pub(crate) depth: usize,
}
