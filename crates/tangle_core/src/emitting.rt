//! The tangled text of a web, line by line.
ghost use Rattle.std.specs.Prelude.{◌≡◌, ◌<◌, ℕ, [], ◌∷◌, List, length, Option, Some, None, IfSome, IfNone, IfOk, OnOk};
ghost use Rattle.std.specs.Prelude.{IfErr, OnErr, Err, false};
ghost use Rattle.wb_ports.specs.Counts.{CountsFailure};
ghost use Rattle.wb_ports.specs.Held.{Gains, GainsPrefix};
ghost use Rattle.macro_expand.specs.declared.refusals.ExpandErr.{ExpandErr};
ghost use Rattle.macro_expand.specs.Items.{item_of};
ghost use Rattle.macro_expand.specs.Expansion.{expansion_of};
ghost use Rattle.tangle_out.specs.Foldable.{IsFoldable};
ghost use Rattle.tangle_out.specs.Packing.{text_of_lines};
ghost use Rattle.tangle_out.specs.Packer.{is_failed as is_output_failed};
ghost use Rattle.tangle_core.specs.Tangled.{tangled, number_of};
ghost use Rattle.tangle_core.specs.Emission.{IfFault, is_failed};
ghost use Rattle.tangle_core.specs.inner.Emitting.{At, Whole, Breaks, IfFaultCode, made_of};

use crate::output::Output;
use macro_expand::{ExpandErr, Item, Stream};
use tangle_out::OutErr;
use wb_base::faults::{NO_PARAMETER_GIVEN, SECTION_NOT_PRESENT, TOO_MANY_LEVELS, TOO_MANY_STEPS};
use wb_base::{Fault, FileTag, Place};
use wb_ports::Sink;
use web_scan::Web;

/// Why the tangled text of a web was not given whole.
#[derive(Clone, Copy, Debug, PartialEq, Eq)]
pub enum EmitErr {
    /// The web has this fault.
    Fault(Fault),
    /// A call of the sink failed, which the sink has counted.
    Failed,
}

/// Gives the sink the tangled text of a web, line by line, each with its byte 10, and answers the number of lines. It
/// takes no memory. TANGLE's work; the form of the lines is this project's own.
///
/// # Errors
///
/// The first fault of the expansion, of the folding of constants or of the packing into lines (29 to 39), at the
/// Pascal file's line after those that were finished before it: these the sink has got. After `Failed` the sink has
/// got a prefix of the lines.
pub fn expand_to<K: Sink>(web: &Web, sink: &mut K) -> Result<u32, EmitErr>
    ensures ok { IfOk result (λ count. let made = tangled (expansion_of web.now) in
        (made.fault ≡ None) × (count ≡ length made.lines)) }
    ensures fault { IfFault result (λ fault. (tangled (expansion_of web.now)).fault ≡ Some fault) }
    ensures told { is_failed result ≡ false →
        Gains (text_of_lines (tangled (expansion_of web.now)).lines) (K.held sink.old) (K.held sink.new) }
    ensures failed { result ≡ Err EmitErr.Failed →
        GainsPrefix (text_of_lines (tangled (expansion_of web.now)).lines) (K.held sink.old) (K.held sink.new) }
    ensures cause { CountsFailure (is_failed result) (K.faults sink.old) (K.faults sink.new) }
    ensures frame { K.frame sink.new ≡ K.frame sink.old }
{
    let mut output = Output::new();
    match emit(web, &mut output, sink) {
        Ok(()) => Ok(output.finished()),
        Err(OutErr::Fault(code)) => Err(EmitErr::Fault(Fault::at(
            code,
            Place {
                file: FileTag::Pas,
                line: output.finished() + 1,
            },
        ))),
        Err(OutErr::Failed) => Err(EmitErr::Failed),
    }
}

// Gives the sink the lines of a web, and has their number in the end.
fn emit<'w, K: Sink>(web: &'w Web, output: &mut Output<'w>, sink: &mut K) -> Result<(), OutErr>
    requires new { (start : Option (List ℕ)) → At output.old.folder output.old.packer [] start start }
    ensures ok { OnOk result (let whole = expansion_of web.now in
        Whole (made_of whole.items whole.fault) output.new.packer.finished (K.held sink.old) (K.held sink.new)) }
    ensures fault { IfFaultCode result (λ code. let whole = expansion_of web.now in
        Breaks (made_of whole.items whole.fault) code output.new.packer.finished
        (K.held sink.old) (K.held sink.new)) }
    ensures failed { result ≡ Err OutErr.Failed → (let whole = expansion_of web.now in
        GainsPrefix (text_of_lines (made_of whole.items whole.fault).lines) (K.held sink.old) (K.held sink.new)) }
    ensures counted { OnErr result (output.new.packer.finished < u32.MAX) }
    ensures cause { CountsFailure (is_output_failed result) (K.faults sink.old) (K.faults sink.new) }
    ensures frame { K.frame sink.new ≡ K.frame sink.old }
{
    let mut stream = Stream::new(web);
    while let Some(item) = next_item(&mut stream)? {
        output.push(item, sink)?;
    }
    output.finish(sink)
}

// The next item of an expansion, if there is one more, or the number of its fault.
fn next_item<'w>(stream: &mut Stream<'w>) -> Result<Option<Item<'w>>, OutErr>
    ensures item { IfOk result (λ given. IfSome given (λ item.
        stream.old ≡ record { items = item_of item ∷ stream.new.items; fault = stream.new.fault })) }
    ensures none { IfOk result (λ given. IfNone given (stream.old ≡ record { items = []; fault = None })) }
    ensures fault { IfErr result (λ refusal. (error : ExpandErr)
        × (stream.old ≡ record { items = []; fault = Some error }) × (refusal ≡ OutErr.Fault (number_of error))) }
    ensures lawful { IfOk result (λ given. IfSome given (λ item. IsFoldable (item_of item))) }
{
    match stream.next() {
        Ok(item) => Ok(item),
        Err(error) => Err(OutErr::Fault(number_of(error))),
    }
}

// The number of a fault of the expansion.
fn number_of(error: ExpandErr) -> u16
    ensures { result ≡ number_of error }
{
    match error {
        ExpandErr::NotPresent => SECTION_NOT_PRESENT,
        ExpandErr::NoParameter => NO_PARAMETER_GIVEN,
        ExpandErr::Levels => TOO_MANY_LEVELS,
        ExpandErr::Steps => TOO_MANY_STEPS,
    }
}
